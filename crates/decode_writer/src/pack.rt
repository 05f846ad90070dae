// The word of a family's numbers: its format, with the places that the family gives them.
ghost use Rattle.std.specs.Prelude.{◌≡◌};
ghost use Rattle.decode_writer.specs.Pack.{fence_bits, swap_bits, mop_r_bits, mop_rr_bits, pack_of};

use super::format;
use decode_numbers::{Eight, Family};

// FENCE's fm, pred and succ.
fn fence(fm: u64, pred: u64, succ: u64) -> u64
    ensures { result ≡ fence_bits fm pred succ }
{
    fm % 16 * 256 + pred % 16 * 16 + succ % 16
}

// The swap's aq, rl and rs2.
fn swap(aq: u64, rl: u64, rs2: u64) -> u64
    ensures { result ≡ swap_bits aq rl rs2 }
{
    aq % 2 * 64 + rl % 2 * 32 + rs2 % 32
}

// The number of MOP.R.
fn mop_r(n: u64) -> u64
    ensures { result ≡ mop_r_bits n }
{
    n / 16 % 2 * 1024 + n / 4 % 4 * 64 + n % 4
}

// The number of MOP.RR, and rs2.
fn mop_rr(n: u64, rs2: u64) -> u64
    ensures { result ≡ mop_rr_bits n rs2 }
{
    n / 4 % 2 * 1024 + n % 4 * 64 + rs2 % 32
}

// A number that is no family's gives the word 0, which does not read as it.
#[tactic(auto, unfolding(crate::specs::Pack::pack_of, crate::specs::Pack::system_pack_of))]
pub fn pack(n: Eight) -> u32
    ensures { result ≡ pack_of n }
{
    let Ok(family) = Family::try_from(n.family) else {
        return 0;
    };
    let key = n.operation;
    match family {
        Family::Illegal => 0,
        Family::Lui => format::u(0b0110111, n.rd, n.immediate),
        Family::Auipc => format::u(0b0010111, n.rd, n.immediate),
        Family::Jal => format::j(0b1101111, n.rd, n.immediate),
        Family::Jalr => format::i(0b1100111, 0, n.rd, n.rs1, n.immediate),
        Family::Branch => format::b(0b1100011, key, n.rs1, n.rs2, n.immediate),
        Family::Load => format::i(0b0000011, key, n.rd, n.rs1, n.immediate),
        Family::Store => format::s(0b0100011, key, n.rs1, n.rs2, n.immediate),
        Family::OpImm => format::i(0b0010011, key, n.rd, n.rs1, n.immediate),
        Family::OpImm32 => format::i(0b0011011, key, n.rd, n.rs1, n.immediate),
        Family::Op => format::i(0b0110011, key, n.rd, n.rs1, n.rs2),
        Family::Op32 => format::i(0b0111011, key, n.rd, n.rs1, n.rs2),
        Family::Fence => format::i(0b0001111, 0, n.rd, n.rs1, fence(key, n.first, n.second)),
        Family::Ecall => 0x00000073,
        Family::Ebreak => 0x00100073,
        Family::Sret => 0x10200073,
        Family::Mret => 0x30200073,
        Family::Csr => format::i(0b1110011, key, n.rd, n.rs1, n.first),
        Family::ReadSsp => format::i(0b1110011, 0b1100110_11100_100, n.rd, 0, 0),
        Family::Push => format::i(0b1110011, 0b1100111_00000_100, 0, 0, n.rs2),
        Family::Pop => format::i(0b1110011, 0b1100110_11100_100, 0, n.rs1, 0),
        Family::Swap => format::i(0b0101111, key, n.rd, n.rs1, swap(n.first, n.second, n.rs2)),
        Family::MopR => format::i(0b1110011, 0b1000000_11100_100, n.rd, n.rs1, mop_r(key)),
        Family::MopRr => format::i(
            0b1110011,
            0b1000001_00000_100,
            n.rd,
            n.rs1,
            mop_rr(key, n.rs2),
        ),
    }
}
