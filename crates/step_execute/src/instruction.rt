// One instruction's effect.
ghost use Rattle.std.specs.Prelude.{◌≡◌, ◌^◌, ◌≤◌, length};
ghost use Rattle.word.specs.Sum.{sum_of};
ghost use Rattle.step_effect.specs.Compute.{operation_of, word_operation_of, condition_of};
ghost use Rattle.step_effect.specs.Jump.{branch_of};
ghost use Rattle.step_meaning.specs.Instruction.{ssp_shown_of, execute_of};
ghost use Rattle.step_effect.specs.declared.Effect.TheVariants.{Write};

use csr_setting::Setting;
use isa::{Condition, Instruction, Operation, WordOperation};
use step_effect::register::reg;
use step_effect::{Effect, compute, csrs, jump, system};
use step_transfer::access;
use word::sum;

// A read of ssp, by the active shadow enable.
fn shown(on: bool, ssp: u64) -> u64
    ensures { result ≡ ssp_shown_of on ssp }
{
    if on {
        return ssp;
    }
    0
}

// OP and OP-IMM.
fn op(o: Operation, rd: u8, a: u64, b: u64, next: u64) -> Effect
    ensures { result ≡ Write rd (operation_of o a b) next }
{
    Effect::Write(rd, compute::operation(o, a, b), next)
}

// OP-32 and OP-IMM-32.
fn op_32(o: WordOperation, rd: u8, a: u64, b: u64, next: u64) -> Effect
    ensures { result ≡ Write rd (word_operation_of o a b) next }
{
    Effect::Write(rd, compute::word_operation(o, a, b), next)
}

fn branch(k: Condition, a: u64, b: u64, next: u64, pc: u64, off: u64) -> Effect
    ensures { result ≡ branch_of (condition_of k a b) next (sum_of pc off) }
{
    jump::branch(compute::condition(k, a, b), next, sum::sum(pc, off))
}

pub fn execute(
    i: Instruction,
    word: u32,
    x: &[u64; 32],
    pc: u64,
    ssp: u64,
    s: Setting,
    mem: &[u8],
    map: &[u64],
) -> Effect
    requires { length mem.now ≤ 2 ^ 20 }
    ensures { result ≡ execute_of i word x.now pc ssp s mem.now map.now }
{
    let next = sum::sum(pc, 4);
    let c = s.control;
    let mode = c.mode;
    match i {
        Instruction::Illegal => system::illegal(word),
        Instruction::Lui(rd, v) => Effect::Write(rd, v, next),
        Instruction::Auipc(rd, v) => Effect::Write(rd, sum::sum(pc, v), next),
        Instruction::Jal(rd, off) => jump::jal(rd, next, sum::sum(pc, off)),
        Instruction::Jalr(rd, rs1, off) => jump::jalr(rd, rs1, next, reg(x, rs1), off, s.pad),
        Instruction::Branch(k, rs1, rs2, off) => branch(k, reg(x, rs1), reg(x, rs2), next, pc, off),
        Instruction::Memory(k, rd, rs1, rs2, off) => access::access(
            k,
            word,
            rd,
            reg(x, rs1),
            reg(x, rs2),
            off,
            ssp,
            next,
            s,
            mem,
            map,
        ),
        Instruction::OpImm(o, rd, rs1, v) => op(o, rd, reg(x, rs1), v, next),
        Instruction::OpImm32(o, rd, rs1, v) => op_32(o, rd, reg(x, rs1), v, next),
        Instruction::Op(o, rd, rs1, rs2) => op(o, rd, reg(x, rs1), reg(x, rs2), next),
        Instruction::Op32(o, rd, rs1, rs2) => op_32(o, rd, reg(x, rs1), reg(x, rs2), next),
        Instruction::Fence(_, _, _, _, _) => Effect::Write(0, 0, next),
        Instruction::Ecall => system::ecall(mode),
        Instruction::Ebreak => system::ebreak(pc),
        Instruction::Sret => system::sret(mode, word),
        Instruction::Mret => system::mret(mode, word),
        Instruction::Csr(o, source, rd, n) => csrs::csr(o, source, rd, n, word, x, next, s),
        Instruction::ReadSsp(rd) => Effect::Write(rd, shown(s.shadow, ssp), next),
        Instruction::MopR(_, rd, _) => Effect::Write(rd, 0, next),
        Instruction::MopRr(_, rd, _, _) => Effect::Write(rd, 0, next),
    }
}
