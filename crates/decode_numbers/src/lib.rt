// A decoded instruction as eight numbers, one layout for all families: what a host writes by hand, and what is compared to see
// whether two instructions are the same. What a family does not have is 0.
#![tactic(auto)]

ghost use Rattle.std.specs.Prelude.{◌≡◌};
ghost use Rattle.decode_numbers.specs.Family.{family_number};
ghost use Rattle.decode_numbers.specs.Numbers.{eight_of, eight_at, list_of, source_of, access_numbers, numbers_of};

pub use families::{Family, NoFamily};
use isa::{Access, CsrSource, Instruction};
use key::Key;

// The families of instructions.
mod families;
// The numbers of operations.
mod key;

#[derive(Clone, Copy, PartialEq, Eq)]
pub struct Eight {
    // any number, as C hands it in; below 24 it is a `Family`
    pub family: u64,
    pub operation: u64,
    pub rd: u64,
    pub rs1: u64,
    pub rs2: u64,
    pub immediate: u64,
    pub first: u64,
    pub second: u64,
}

impl From<[u64; 8]> for Eight {
    ghost from_gives = { λ l n. n ≡ eight_at l };

    fn from(words: [u64; 8]) -> Eight {
        let [family, operation, rd, rs1, rs2, immediate, first, second] = words;
        Eight {
            family,
            operation,
            rd,
            rs1,
            rs2,
            immediate,
            first,
            second,
        }
    }
}

impl From<Eight> for [u64; 8] {
    ghost from_gives = { λ n l. l ≡ list_of n };

    fn from(n: Eight) -> [u64; 8] {
        [
            n.family,
            n.operation,
            n.rd,
            n.rs1,
            n.rs2,
            n.immediate,
            n.first,
            n.second,
        ]
    }
}

// The numbers of a family without a first and a second.
fn row(family: Family, operation: u64, rd: u8, rs1: u8, rs2: u8, immediate: u64) -> Eight
    ensures { result ≡ eight_of (family_number family) operation rd rs1 rs2 immediate 0 0 }
{
    Eight {
        family: u64::from(family),
        operation,
        rd: u64::from(rd),
        rs1: u64::from(rs1),
        rs2: u64::from(rs2),
        immediate,
        first: 0,
        second: 0,
    }
}

fn source(s: CsrSource) -> u8
    ensures { result ≡ source_of s }
{
    let (CsrSource::Register(n) | CsrSource::Immediate(n)) = s;
    n
}

fn access(a: Access, rd: u8, rs1: u8, rs2: u8, offset: u64) -> Eight
    ensures { result ≡ access_numbers a rd rs1 rs2 offset }
{
    match a {
        Access::Load(w, signed) => row(Family::Load, key::load(w, signed), rd, rs1, rs2, offset),
        Access::Store(w) => row(Family::Store, w.key(), rd, rs1, rs2, offset),
        Access::Push => row(Family::Push, 0, rd, rs1, rs2, offset),
        Access::Pop => row(Family::Pop, 0, rd, rs1, rs2, offset),
        Access::Swap(w, aq, rl) => Eight {
            first: u64::from(aq),
            second: u64::from(rl),
            ..row(Family::Swap, key::swap(w), rd, rs1, rs2, offset)
        },
    }
}

// A function and no `From`: read where it is called, it says what the numbers are of.
pub fn of_instruction(i: Instruction) -> Eight
    ensures { result ≡ numbers_of i }
{
    match i {
        Instruction::Illegal => row(Family::Illegal, 0, 0, 0, 0, 0),
        Instruction::Lui(rd, n) => row(Family::Lui, 0, rd, 0, 0, n),
        Instruction::Auipc(rd, n) => row(Family::Auipc, 0, rd, 0, 0, n),
        Instruction::Jal(rd, n) => row(Family::Jal, 0, rd, 0, 0, n),
        Instruction::Jalr(rd, rs1, n) => row(Family::Jalr, 0, rd, rs1, 0, n),
        Instruction::Branch(c, rs1, rs2, n) => row(Family::Branch, c.key(), 0, rs1, rs2, n),
        Instruction::Memory(a, rd, rs1, rs2, n) => access(a, rd, rs1, rs2, n),
        Instruction::OpImm(o, rd, rs1, n) => row(Family::OpImm, o.key(), rd, rs1, 0, n),
        Instruction::OpImm32(o, rd, rs1, n) => row(Family::OpImm32, o.key(), rd, rs1, 0, n),
        Instruction::Op(o, rd, rs1, rs2) => row(Family::Op, o.key(), rd, rs1, rs2, 0),
        Instruction::Op32(o, rd, rs1, rs2) => row(Family::Op32, o.key(), rd, rs1, rs2, 0),
        Instruction::Fence(fm, p, s, rs1, rd) => Eight {
            first: u64::from(p),
            second: u64::from(s),
            ..row(Family::Fence, u64::from(fm), rd, rs1, 0, 0)
        },
        Instruction::Ecall => row(Family::Ecall, 0, 0, 0, 0, 0),
        Instruction::Ebreak => row(Family::Ebreak, 0, 0, 0, 0, 0),
        Instruction::Sret => row(Family::Sret, 0, 0, 0, 0, 0),
        Instruction::Mret => row(Family::Mret, 0, 0, 0, 0, 0),
        Instruction::Csr(o, s, rd, n) => Eight {
            first: u64::from(n),
            ..row(Family::Csr, key::csr(o, s), rd, source(s), 0, 0)
        },
        Instruction::ReadSsp(rd) => row(Family::ReadSsp, 0, rd, 0, 0, 0),
        Instruction::MopR(n, rd, rs1) => row(Family::MopR, u64::from(n), rd, rs1, 0, 0),
        Instruction::MopRr(n, rd, rs1, rs2) => row(Family::MopRr, u64::from(n), rd, rs1, rs2, 0),
    }
}
