// Zicfiss and Zimop: the shadow swap, the two forms of may-be-operations, and those of their words that
// push, pop-check or read ssp.
ghost use Rattle.std.specs.Prelude.{◌≡◌};
ghost use Rattle.decode.specs.Cfi.{swap_of, mop_of, zimop_of};

use isa::{Access, Instruction, Width};
use word::field::Fields;

// In the AMO opcode: funct5 01001, then aq and rl, which may be anything.
#[tactic(auto, unfolding(crate::specs::Cfi::swap_of))]
pub fn swap(f: Fields) -> Instruction
    ensures { result ≡ swap_of f }
{
    let aq = f.funct7 / 2 % 2 == 1;
    let rl = f.funct7 % 2 == 1;
    let width = match u32::from(f.funct7 / 4) * 8 + u32::from(f.funct3) {
        0b01001_010 => Width::Word,
        0b01001_011 => Width::Double,
        _ => return Instruction::Illegal,
    };
    Instruction::Memory(Access::Swap(width, aq, rl), f.rd, f.rs1, f.rs2, 0)
}

// MOP.R.n is 1 n[4] 00 n[3:2] 0111 n[1:0] in bits 31:20, MOP.RR.n is 1 n[2] 00 n[1:0] 1 in bits 31:25.
#[tactic(auto, unfolding(crate::specs::Cfi::mop_of))]
fn mop(w: u32, f: Fields) -> Instruction
    ensures { result ≡ mop_of w f }
{
    if w / 2147483648 % 2 * 64 + w / 268435456 % 4 * 16 + w / 4194304 % 16 == 0b1_00_0111 {
        let n = w / 1073741824 % 2 * 16 + w / 67108864 % 4 * 4 + w / 1048576 % 4;
        return Instruction::MopR(n as u8, f.rd, f.rs1);
    }
    if w / 2147483648 % 2 * 8 + w / 268435456 % 4 * 2 + w / 33554432 % 2 == 0b1_00_1 {
        let n = w / 1073741824 % 2 * 4 + w / 67108864 % 4;
        return Instruction::MopRr(n as u8, f.rd, f.rs1, f.rs2);
    }
    Instruction::Illegal
}

// The table of the words that Zicfiss gives a meaning (docs/HART.md, 3.18); every other word is the plain operation.
#[tactic(auto, unfolding(crate::specs::Cfi::zimop_of))]
pub fn zimop(w: u32, f: Fields) -> Instruction
    ensures { result ≡ zimop_of w f }
{
    match w {
        0xce104073 => Instruction::Memory(Access::Push, 0, 0, 1, 0),
        0xce504073 => Instruction::Memory(Access::Push, 0, 0, 5, 0),
        0xcdc0c073 => Instruction::Memory(Access::Pop, 0, 1, 0, 0),
        0xcdc2c073 => Instruction::Memory(Access::Pop, 0, 5, 0, 0),
        0xcdc04073 => mop(w, f),
        _ => if w - w / 128 % 32 * 128 == 0xcdc04073 {
            Instruction::ReadSsp(f.rd)
        } else {
            mop(w, f)
        },
    }
}
