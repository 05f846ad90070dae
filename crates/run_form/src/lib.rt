// An instruction in a form that is quick to carry out: an operation that one byte names, three registers and a number. What was decoded once, and
// what the setting says of it (a landing pad is expected, the shadow stack is off), is not asked again.
//
// OP-IMM and OP are one: the second operand is the second register's value and the number together, of which one is 0. LUI and AUIPC are sums
// likewise. A jump's and a branch's number is its target.
#![tactic(auto)]

ghost use Rattle.std.specs.Prelude.{◌≡◌, ℕ, ◌<◌, ◌⊎◌};
ghost use Rattle.isa.specs.declared.Access.TheVariants as access;
ghost use Rattle.isa.specs.declared.Instruction.TheVariants as instruction;
ghost use Rattle.csr_setting.specs.declared.Setting as setting;
ghost use Rattle.run_form.specs.Form.{shape_of, Compute, ComputeWord, Branch, Memory, Means};
ghost use Rattle.run_form.specs.declared.Op.TheVariants.{Add, Left};

use csr_setting::Setting;
use isa::{Access, Condition, Instruction, Operation, Width, WordOperation};
use step_effect::jump;
use word::sum;

#[derive(Clone, Copy)]
pub enum Op {
    Add,
    Sub,
    Sll,
    Slt,
    Sltu,
    Xor,
    Srl,
    Sra,
    Or,
    And,
    Mul,
    Mulh,
    Mulhsu,
    Mulhu,
    Div,
    Divu,
    Rem,
    Remu,
    Min,
    Minu,
    Max,
    Maxu,
    Clz,
    Ctz,
    Cpop,
    Addw,
    Subw,
    Sllw,
    Srlw,
    Sraw,
    Mulw,
    Divw,
    Divuw,
    Remw,
    Remuw,
    Clzw,
    Ctzw,
    Cpopw,
    Jal,
    Jalr,
    Beq,
    Bne,
    Blt,
    Bge,
    Bltu,
    Bgeu,
    Lb,
    Lh,
    Lw,
    Ld,
    Lbu,
    Lhu,
    Lwu,
    Sb,
    Sh,
    Sw,
    Sd,
    Push,
    Pop,
    ReadSsp,
    // what is left to the slow path
    Left,
}

#[derive(Clone, Copy)]
pub struct Form {
    pub op: Op,
    pub rd: u8,
    pub rs1: u8,
    pub rs2: u8,
    pub value: u64,
}

fn make(op: Op, rd: u8, rs1: u8, rs2: u8, value: u64) -> Form
    ensures { result ≡ record { op = op; rd = rd; rs1 = rs1; rs2 = rs2; value = value } }
{
    Form {
        op,
        rd,
        rs1,
        rs2,
        value,
    }
}

fn operation(o: Operation) -> Op
    ensures { shape_of result ≡ Compute o }
{
    match o {
        Operation::Add => Op::Add,
        Operation::Sub => Op::Sub,
        Operation::Sll => Op::Sll,
        Operation::Slt => Op::Slt,
        Operation::Sltu => Op::Sltu,
        Operation::Xor => Op::Xor,
        Operation::Srl => Op::Srl,
        Operation::Sra => Op::Sra,
        Operation::Or => Op::Or,
        Operation::And => Op::And,
        Operation::Mul => Op::Mul,
        Operation::Mulh => Op::Mulh,
        Operation::Mulhsu => Op::Mulhsu,
        Operation::Mulhu => Op::Mulhu,
        Operation::Div => Op::Div,
        Operation::Divu => Op::Divu,
        Operation::Rem => Op::Rem,
        Operation::Remu => Op::Remu,
        Operation::Min => Op::Min,
        Operation::Minu => Op::Minu,
        Operation::Max => Op::Max,
        Operation::Maxu => Op::Maxu,
        Operation::Clz => Op::Clz,
        Operation::Ctz => Op::Ctz,
        Operation::Cpop => Op::Cpop,
    }
}

fn word_operation(o: WordOperation) -> Op
    ensures { shape_of result ≡ ComputeWord o }
{
    match o {
        WordOperation::Addw => Op::Addw,
        WordOperation::Subw => Op::Subw,
        WordOperation::Sllw => Op::Sllw,
        WordOperation::Srlw => Op::Srlw,
        WordOperation::Sraw => Op::Sraw,
        WordOperation::Mulw => Op::Mulw,
        WordOperation::Divw => Op::Divw,
        WordOperation::Divuw => Op::Divuw,
        WordOperation::Remw => Op::Remw,
        WordOperation::Remuw => Op::Remuw,
        WordOperation::Clzw => Op::Clzw,
        WordOperation::Ctzw => Op::Ctzw,
        WordOperation::Cpopw => Op::Cpopw,
    }
}

fn branch(k: Condition) -> Op
    ensures { shape_of result ≡ Branch k }
{
    match k {
        Condition::Equal => Op::Beq,
        Condition::NotEqual => Op::Bne,
        Condition::Less => Op::Blt,
        Condition::NotLess => Op::Bge,
        Condition::LessUnsigned => Op::Bltu,
        Condition::NotLessUnsigned => Op::Bgeu,
    }
}

fn load(n: Width, sign: bool) -> Op
    ensures { (result ≡ Left) ⊎ (shape_of result ≡ Memory (access.Load n sign)) }
{
    match (n, sign) {
        (Width::Byte, true) => Op::Lb,
        (Width::Half, true) => Op::Lh,
        (Width::Word, true) => Op::Lw,
        (Width::Double, true) => Op::Ld,
        (Width::Byte, false) => Op::Lbu,
        (Width::Half, false) => Op::Lhu,
        (Width::Word, false) => Op::Lwu,
        (Width::Double, false) => Op::Left,
    }
}

fn store(n: Width) -> Op
    ensures { shape_of result ≡ Memory (access.Store n) }
{
    match n {
        Width::Byte => Op::Sb,
        Width::Half => Op::Sh,
        Width::Word => Op::Sw,
        Width::Double => Op::Sd,
    }
}

pub fn left() -> Form
    ensures { result ≡ record { op = Left; rd = 0; rs1 = 0; rs2 = 0; value = 0 } }
{
    make(Op::Left, 0, 0, 0, 0)
}

// rd takes 0.
fn zero(rd: u8) -> Form
    ensures { result ≡ record { op = Add; rd = rd; rs1 = 0; rs2 = 0; value = 0 } }
{
    make(Op::Add, rd, 0, 0, 0)
}

fn access(k: Access, rd: u8, rs1: u8, rs2: u8, off: u64, on: bool) -> Form
    ensures { (word pc : ℕ) (s : setting.Setting) → s.shadow ≡ on → Means result (instruction.Memory k rd rs1 rs2 off) word pc s }
{
    match k {
        Access::Load(n, sign) => make(load(n, sign), rd, rs1, rs2, off),
        Access::Store(n) => make(store(n), rd, rs1, rs2, off),
        Access::Push if on => make(Op::Push, rd, rs1, rs2, off),
        Access::Pop if on => make(Op::Pop, rd, rs1, rs2, off),
        Access::Push => zero(rd),
        Access::Pop => zero(rd),
        Access::Swap(_, _, _) => left(),
    }
}

// The form of an instruction at pc, its registers' numbers as they are. Of the setting it takes the pad enable and the shadow enable.
fn shaped(i: Instruction, pc: u64, pad: bool, on: bool) -> Form
    ensures { (word : ℕ) (s : setting.Setting) → s.pad ≡ pad → s.shadow ≡ on → Means result i word pc s }
{
    match i {
        Instruction::Lui(rd, v) => make(Op::Add, rd, 0, 0, v),
        Instruction::Auipc(rd, v) => make(Op::Add, rd, 0, 0, sum::sum(pc, v)),
        Instruction::Jal(rd, off) => make(Op::Jal, rd, 0, 0, sum::sum(pc, off)),
        Instruction::Jalr(rd, rs1, off) => {
            if jump::expected(pad, jump::needs_no_pad(rs1)) {
                return left();
            }
            make(Op::Jalr, rd, rs1, 0, off)
        }
        Instruction::Branch(k, rs1, rs2, off) => make(branch(k), 0, rs1, rs2, sum::sum(pc, off)),
        Instruction::Memory(k, rd, rs1, rs2, off) => access(k, rd, rs1, rs2, off, on),
        Instruction::OpImm(o, rd, rs1, v) => make(operation(o), rd, rs1, 0, v),
        Instruction::OpImm32(o, rd, rs1, v) => make(word_operation(o), rd, rs1, 0, v),
        Instruction::Op(o, rd, rs1, rs2) => make(operation(o), rd, rs1, rs2, 0),
        Instruction::Op32(o, rd, rs1, rs2) => make(word_operation(o), rd, rs1, rs2, 0),
        Instruction::Fence(_, _, _, _, _) => zero(0),
        Instruction::ReadSsp(rd) if on => make(Op::ReadSsp, rd, 0, 0, 0),
        Instruction::ReadSsp(rd) => zero(rd),
        Instruction::MopR(_, rd, _) => zero(rd),
        Instruction::MopRr(_, rd, _, _) => zero(rd),
        Instruction::Illegal
        | Instruction::Ecall
        | Instruction::Ebreak
        | Instruction::Sret
        | Instruction::Mret
        | Instruction::Csr(_, _, _, _) => left(),
    }
}

// The form of an instruction at pc. A register's number is below 32, so that nobody has to cut it.
pub fn formed(i: Instruction, pc: u64, s: Setting) -> Form
    ensures means { (word : ℕ) → Means result i word pc s }
    ensures small { (result.rd < 32) × (result.rs1 < 32) × (result.rs2 < 32) }
{
    let f = shaped(i, pc, s.pad, s.shadow);
    if f.rd < 32 && f.rs1 < 32 && f.rs2 < 32 {
        return f;
    }
    left()
}
