// The reader of instruction words: the major opcodes here, RV64I's words in crate `decode_base`, the others' in the modules below.
#![tactic(auto)]

ghost use Rattle.std.specs.Prelude.{false, ◌≡◌};
ghost use Rattle.decode.specs.Decode.{decode_of, is_privileged};

use isa::Instruction;
use word::{field, immediate};

// The shadow stack's swap and the words of Zimop.
mod cfi;
// ECALL, EBREAK, the returns and the CSR instructions.
mod system;

// Whether a word is an environment call, a breakpoint, a return or a CSR instruction, or nothing: all of SYSTEM but what Zimop has.
pub fn privileged(w: u32) -> bool
    ensures { result ≡ is_privileged w }
{
    w % 128 == 0b1110011 && w / 4096 % 8 != 0b100
}

// The instruction that another word names. Each arm takes the word apart for itself: split before the match, every field of every word
// would be computed, and in an arm the compiler keeps only those that the arm uses.
#[tactic(auto, using(crate::proofs::Zimops::only_zimop), unfolding(crate::specs::Decode::decode_of))]
pub fn plain(w: u32) -> Instruction
    ensures { is_privileged w ≡ false → result ≡ decode_of w }
{
    match w % 128 {
        0b0110111 => Instruction::Lui(field::split(w).rd, immediate::imm_u(w)),
        0b0010111 => Instruction::Auipc(field::split(w).rd, immediate::imm_u(w)),
        0b1101111 => Instruction::Jal(field::split(w).rd, immediate::imm_j(w)),
        0b1100111 => decode_base::jalr(field::split(w), immediate::imm_i(w)),
        0b1100011 => decode_base::branch(field::split(w), immediate::imm_b(w)),
        0b0000011 => decode_base::load(field::split(w), immediate::imm_i(w)),
        0b0100011 => decode_base::store(field::split(w), immediate::imm_s(w)),
        0b0010011 => decode_base::op_imm(field::split(w), immediate::imm_i(w)),
        0b0011011 => decode_base::op_imm_32(field::split(w), immediate::imm_i(w)),
        0b0110011 => decode_base::op(field::split(w)),
        0b0111011 => decode_base::op_32(field::split(w)),
        0b0001111 => decode_base::misc_mem(w, field::split(w)),
        0b0101111 => cfi::swap(field::split(w)),
        0b1110011 => cfi::zimop(w, field::split(w)),
        _ => Instruction::Illegal,
    }
}

// The instruction that a word names. SYSTEM stands apart: most of what takes the slow path is there, and `plain`, which the fast path calls too, is too
// large to be compiled into both (docs/SPEED.md).
#[tactic(auto, unfolding(crate::specs::Decode::decode_of))]
pub fn decode(w: u32) -> Instruction
    ensures { result ≡ decode_of w }
{
    if w % 128 == 0b1110011 {
        return system::system(w, field::split(w));
    }
    plain(w)
}
