// RV64I, M, and what is taken from Zbb: one function for each major opcode, by the tables of the manual's chapter of instruction listings.
// A key is written as the manual prints it: funct7 before funct3.
#![tactic(auto)]

ghost use Rattle.std.specs.Prelude.{◌≡◌};
ghost use Rattle.decode_base.specs.Base.{functs, count_key, decode_jalr_of, decode_branch_of, decode_load_of, decode_store_of, count_of, count_word_of, shift_of, op_imm_of, word_shift_of, op_imm32_of};
ghost use Rattle.decode_base.specs.Base.{extension_of, op_of, extension32_of, op32_of, misc_mem_of};

use isa::{Access, Condition, Instruction, Operation, Width, WordOperation};
use word::field::Fields;

// funct7 and funct3.
fn functs(f: Fields) -> u32
    ensures { result ≡ functs f }
{
    u32::from(f.funct7) * 8 + u32::from(f.funct3)
}

// funct7, rs2 and funct3.
fn count_key(f: Fields) -> u32
    ensures { result ≡ count_key f }
{
    u32::from(f.funct7) * 256 + u32::from(f.rs2) * 8 + u32::from(f.funct3)
}

#[tactic(auto, unfolding(crate::specs::Base::decode_jalr_of))]
pub fn jalr(f: Fields, offset: u64) -> Instruction
    ensures { result ≡ decode_jalr_of f offset }
{
    match f.funct3 {
        0b000 => Instruction::Jalr(f.rd, f.rs1, offset),
        _ => Instruction::Illegal,
    }
}

#[tactic(auto, unfolding(crate::specs::Base::decode_branch_of))]
pub fn branch(f: Fields, offset: u64) -> Instruction
    ensures { result ≡ decode_branch_of f offset }
{
    let condition = match f.funct3 {
        0b000 => Condition::Equal,
        0b001 => Condition::NotEqual,
        0b100 => Condition::Less,
        0b101 => Condition::NotLess,
        0b110 => Condition::LessUnsigned,
        0b111 => Condition::NotLessUnsigned,
        _ => return Instruction::Illegal,
    };
    Instruction::Branch(condition, f.rs1, f.rs2, offset)
}

#[tactic(auto, unfolding(crate::specs::Base::decode_load_of))]
pub fn load(f: Fields, offset: u64) -> Instruction
    ensures { result ≡ decode_load_of f offset }
{
    let (width, signed) = match f.funct3 {
        0b000 => (Width::Byte, true),
        0b001 => (Width::Half, true),
        0b010 => (Width::Word, true),
        0b011 => (Width::Double, true),
        0b100 => (Width::Byte, false),
        0b101 => (Width::Half, false),
        0b110 => (Width::Word, false),
        _ => return Instruction::Illegal,
    };
    Instruction::Memory(Access::Load(width, signed), f.rd, f.rs1, 0, offset)
}

#[tactic(auto, unfolding(crate::specs::Base::decode_store_of))]
pub fn store(f: Fields, offset: u64) -> Instruction
    ensures { result ≡ decode_store_of f offset }
{
    let width = match f.funct3 {
        0b000 => Width::Byte,
        0b001 => Width::Half,
        0b010 => Width::Word,
        0b011 => Width::Double,
        _ => return Instruction::Illegal,
    };
    Instruction::Memory(Access::Store(width), 0, f.rs1, f.rs2, offset)
}

// CLZ, CTZ and CPOP.
#[tactic(auto, unfolding(crate::specs::Base::count_of))]
fn count(f: Fields) -> Instruction
    ensures { result ≡ count_of f }
{
    let operation = match count_key(f) {
        0b0110000_00000_001 => Operation::Clz,
        0b0110000_00001_001 => Operation::Ctz,
        0b0110000_00010_001 => Operation::Cpop,
        _ => return Instruction::Illegal,
    };
    Instruction::OpImm(operation, f.rd, f.rs1, 0)
}

// The immediate shifts: funct6 and funct3; the amount has six bits.
#[tactic(auto, unfolding(crate::specs::Base::shift_of))]
fn shift(f: Fields) -> Instruction
    ensures { result ≡ shift_of f }
{
    let operation = match u32::from(f.funct7 / 2) * 8 + u32::from(f.funct3) {
        0b000000_001 => Operation::Sll,
        0b000000_101 => Operation::Srl,
        0b010000_101 => Operation::Sra,
        _ => return count(f),
    };
    let amount = u64::from(f.funct7 % 2) * 32 + u64::from(f.rs2);
    Instruction::OpImm(operation, f.rd, f.rs1, amount)
}

#[tactic(auto, unfolding(crate::specs::Base::op_imm_of))]
pub fn op_imm(f: Fields, imm: u64) -> Instruction
    ensures { result ≡ op_imm_of f imm }
{
    let operation = match f.funct3 {
        0b000 => Operation::Add,
        0b010 => Operation::Slt,
        0b011 => Operation::Sltu,
        0b100 => Operation::Xor,
        0b110 => Operation::Or,
        0b111 => Operation::And,
        _ => return shift(f),
    };
    Instruction::OpImm(operation, f.rd, f.rs1, imm)
}

// Their word forms. These tables stay apart from those above, since they have other rows: the counts alone have the same keys, and a trait for their three
// names would be longer than the rows.
#[tactic(auto, unfolding(crate::specs::Base::count_word_of))]
fn count_word(f: Fields) -> Instruction
    ensures { result ≡ count_word_of f }
{
    let operation = match count_key(f) {
        0b0110000_00000_001 => WordOperation::Clzw,
        0b0110000_00001_001 => WordOperation::Ctzw,
        0b0110000_00010_001 => WordOperation::Cpopw,
        _ => return Instruction::Illegal,
    };
    Instruction::OpImm32(operation, f.rd, f.rs1, 0)
}

// The shifts of words: the amount has the five bits of rs2.
#[tactic(auto, unfolding(crate::specs::Base::word_shift_of))]
fn word_shift(f: Fields) -> Instruction
    ensures { result ≡ word_shift_of f }
{
    let operation = match functs(f) {
        0b0000000_001 => WordOperation::Sllw,
        0b0000000_101 => WordOperation::Srlw,
        0b0100000_101 => WordOperation::Sraw,
        _ => return count_word(f),
    };
    Instruction::OpImm32(operation, f.rd, f.rs1, u64::from(f.rs2))
}

#[tactic(auto, unfolding(crate::specs::Base::op_imm32_of))]
pub fn op_imm_32(f: Fields, imm: u64) -> Instruction
    ensures { result ≡ op_imm32_of f imm }
{
    match f.funct3 {
        0b000 => Instruction::OpImm32(WordOperation::Addw, f.rd, f.rs1, imm),
        _ => word_shift(f),
    }
}

// M, and the minimum and maximum of Zbb.
#[tactic(auto, unfolding(crate::specs::Base::extension_of))]
fn extension(f: Fields) -> Instruction
    ensures { result ≡ extension_of f }
{
    let operation = match functs(f) {
        0b0000001_000 => Operation::Mul,
        0b0000001_001 => Operation::Mulh,
        0b0000001_010 => Operation::Mulhsu,
        0b0000001_011 => Operation::Mulhu,
        0b0000001_100 => Operation::Div,
        0b0000001_101 => Operation::Divu,
        0b0000001_110 => Operation::Rem,
        0b0000001_111 => Operation::Remu,
        0b0000101_100 => Operation::Min,
        0b0000101_101 => Operation::Minu,
        0b0000101_110 => Operation::Max,
        0b0000101_111 => Operation::Maxu,
        _ => return Instruction::Illegal,
    };
    Instruction::Op(operation, f.rd, f.rs1, f.rs2)
}

#[tactic(auto, unfolding(crate::specs::Base::op_of))]
pub fn op(f: Fields) -> Instruction
    ensures { result ≡ op_of f }
{
    let operation = match functs(f) {
        0b0000000_000 => Operation::Add,
        0b0100000_000 => Operation::Sub,
        0b0000000_001 => Operation::Sll,
        0b0000000_010 => Operation::Slt,
        0b0000000_011 => Operation::Sltu,
        0b0000000_100 => Operation::Xor,
        0b0000000_101 => Operation::Srl,
        0b0100000_101 => Operation::Sra,
        0b0000000_110 => Operation::Or,
        0b0000000_111 => Operation::And,
        _ => return extension(f),
    };
    Instruction::Op(operation, f.rd, f.rs1, f.rs2)
}

// M's word forms.
#[tactic(auto, unfolding(crate::specs::Base::extension32_of))]
fn extension_32(f: Fields) -> Instruction
    ensures { result ≡ extension32_of f }
{
    let operation = match functs(f) {
        0b0000001_000 => WordOperation::Mulw,
        0b0000001_100 => WordOperation::Divw,
        0b0000001_101 => WordOperation::Divuw,
        0b0000001_110 => WordOperation::Remw,
        0b0000001_111 => WordOperation::Remuw,
        _ => return Instruction::Illegal,
    };
    Instruction::Op32(operation, f.rd, f.rs1, f.rs2)
}

#[tactic(auto, unfolding(crate::specs::Base::op32_of))]
pub fn op_32(f: Fields) -> Instruction
    ensures { result ≡ op32_of f }
{
    let operation = match functs(f) {
        0b0000000_000 => WordOperation::Addw,
        0b0100000_000 => WordOperation::Subw,
        0b0000000_001 => WordOperation::Sllw,
        0b0000000_101 => WordOperation::Srlw,
        0b0100000_101 => WordOperation::Sraw,
        _ => return extension_32(f),
    };
    Instruction::Op32(operation, f.rd, f.rs1, f.rs2)
}

// FENCE with any fields; FENCE.I is not here.
#[tactic(auto, unfolding(crate::specs::Base::misc_mem_of))]
pub fn misc_mem(w: u32, f: Fields) -> Instruction
    ensures { result ≡ misc_mem_of w f }
{
    let fm = (w / 268435456 % 16) as u8;
    let pred = (w / 16777216 % 16) as u8;
    let succ = (w / 1048576 % 16) as u8;
    match f.funct3 {
        0b000 => Instruction::Fence(fm, pred, succ, f.rs1, f.rd),
        _ => Instruction::Illegal,
    }
}
