// RV64I that touches the registers and pc alone: one function for each major opcode. Each reads its words by the decoder's own
// function, writes rd, and says where pc goes on; a jump that traps, or that must land on a pad, is left undone.
//
// A branch writes 0 to register 0, as its effect says: so what is left of the registers is the effect's, whatever they held.
ghost use Rattle.std.specs.Prelude.{Bool, List, ◌≡◌, ℕ};
ghost use Rattle.word.specs.Field.{fields_of};
ghost use Rattle.word.specs.Immediate.{imm_i_of, imm_b_of, imm_u_of, imm_j_of};
ghost use Rattle.isa.specs.declared.Instruction.TheVariants.{Lui, Auipc, Jal};
ghost use Rattle.decode_base.specs.Base.{decode_jalr_of, decode_branch_of, op_imm_of, op_imm32_of, op_of, op32_of};
ghost use Rattle.step_effect.specs.Jump.{jal_of};
ghost use Rattle.run_done.specs.Moves.{Done};
ghost use Rattle.run_quick.specs.Quick.{Computes};

use isa::Instruction;
use run_moves::wrote;
use step_effect::register::reg;
use step_effect::{compute, jump};
use word::{field, immediate, sum};

// To a target, with the link in rd: JAL, JALR where no landing pad is expected, and a branch that is taken, whose rd is 0.
fn jumped(x: &mut [u64; 32], rd: u8, link: u64, target: u64) -> Option<u64>
    ensures { (rest m : List ℕ) → Done result (jal_of rd link target) x.old rest m x.new rest m }
{
    if target % 4 == 0 {
        return wrote(x, rd, link, target);
    }
    None
}

pub fn lui(w: u32, x: &mut [u64; 32], pc: u64) -> Option<u64>
    ensures { (pad : Bool) → Computes (Lui (fields_of w).rd (imm_u_of w)) w x.old pc pad result x.new }
{
    wrote(x, field::split(w).rd, immediate::imm_u(w), sum::sum(pc, 4))
}

pub fn auipc(w: u32, x: &mut [u64; 32], pc: u64) -> Option<u64>
    ensures { (pad : Bool) → Computes (Auipc (fields_of w).rd (imm_u_of w)) w x.old pc pad result x.new }
{
    wrote(
        x,
        field::split(w).rd,
        sum::sum(pc, immediate::imm_u(w)),
        sum::sum(pc, 4),
    )
}

pub fn jal(w: u32, x: &mut [u64; 32], pc: u64) -> Option<u64>
    ensures { (pad : Bool) → Computes (Jal (fields_of w).rd (imm_j_of w)) w x.old pc pad result x.new }
{
    jumped(
        x,
        field::split(w).rd,
        sum::sum(pc, 4),
        sum::sum(pc, immediate::imm_j(w)),
    )
}

pub fn jalr(w: u32, x: &mut [u64; 32], pc: u64, pad: bool) -> Option<u64>
    ensures { Computes (decode_jalr_of (fields_of w) (imm_i_of w)) w x.old pc pad result x.new }
{
    let Instruction::Jalr(rd, rs1, off) = decode_base::jalr(field::split(w), immediate::imm_i(w))
    else {
        return None;
    };
    if jump::expected(pad, jump::needs_no_pad(rs1)) {
        return None;
    }
    let target = jump::even(sum::sum(reg(x, rs1), off));
    jumped(x, rd, sum::sum(pc, 4), target)
}

pub fn branch(w: u32, x: &mut [u64; 32], pc: u64) -> Option<u64>
    ensures { (pad : Bool) → Computes (decode_branch_of (fields_of w) (imm_b_of w)) w x.old pc pad result x.new }
{
    let Instruction::Branch(k, rs1, rs2, off) = decode_base::branch(
        field::split(w),
        immediate::imm_b(w),
    ) else {
        return None;
    };
    if compute::condition(k, reg(x, rs1), reg(x, rs2)) {
        return jumped(x, 0, 0, sum::sum(pc, off));
    }
    wrote(x, 0, 0, sum::sum(pc, 4))
}

pub fn op_imm(w: u32, x: &mut [u64; 32], pc: u64) -> Option<u64>
    ensures { (pad : Bool) → Computes (op_imm_of (fields_of w) (imm_i_of w)) w x.old pc pad result x.new }
{
    let f = field::split(w);
    let v = run_value::op_imm(f, reg(x, f.rs1), immediate::imm_i(w))?;
    wrote(x, f.rd, v, sum::sum(pc, 4))
}

pub fn op_imm_32(w: u32, x: &mut [u64; 32], pc: u64) -> Option<u64>
    ensures { (pad : Bool) → Computes (op_imm32_of (fields_of w) (imm_i_of w)) w x.old pc pad result x.new }
{
    let f = field::split(w);
    let v = run_value::op_imm_32(f, reg(x, f.rs1), immediate::imm_i(w))?;
    wrote(x, f.rd, v, sum::sum(pc, 4))
}

pub fn op(w: u32, x: &mut [u64; 32], pc: u64) -> Option<u64>
    ensures { (pad : Bool) → Computes (op_of (fields_of w)) w x.old pc pad result x.new }
{
    let f = field::split(w);
    let v = run_value::op(f, reg(x, f.rs1), reg(x, f.rs2))?;
    wrote(x, f.rd, v, sum::sum(pc, 4))
}

pub fn op_32(w: u32, x: &mut [u64; 32], pc: u64) -> Option<u64>
    ensures { (pad : Bool) → Computes (op32_of (fields_of w)) w x.old pc pad result x.new }
{
    let f = field::split(w);
    let v = run_value::op_32(f, reg(x, f.rs1), reg(x, f.rs2))?;
    wrote(x, f.rd, v, sum::sum(pc, 4))
}
