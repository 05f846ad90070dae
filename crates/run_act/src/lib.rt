// What a form does (crate `run_form`), in place on a hart's registers and words and on memory: all that its effect says, or nothing. What traps is left
// undone, and so is what a form does not name: the slow path does it.
//
// One match for all: a second one would be a second jump for each instruction (docs/SPEED.md).
#![tactic(auto)]

ghost use Rattle.std.specs.Prelude.{Bool, IfSome, Some, None, List, ◌≡◌, ℕ, ◌+◌, ◌^◌, ◌<◌, ◌≤◌, length, get_or};
ghost use Rattle.word.specs.Sum.{sum_of};
ghost use Rattle.isa.specs.declared.Access.TheVariants as access;
ghost use Rattle.isa.specs.declared.Kind.TheVariants as kind;
ghost use Rattle.isa.specs.declared.Width.TheVariants.{Double};
ghost use Rattle.address.specs.Stack.{push_of};
ghost use Rattle.address_place.specs.Place.{place_of};
ghost use Rattle.step_effect.specs.Jump.{jal_of, branch_of};
ghost use Rattle.step_effect.specs.Register.{put_of};
ghost use Rattle.step_transfer.specs.Access.{at_of};
ghost use Rattle.step_meaning.specs.Instruction.{next_of};
ghost use Rattle.csr_words.specs.Words.{◌of◌, SSP};
ghost use Rattle.run_pages.specs.Pages.{Remembers};
ghost use Rattle.run_form.specs.Form.{does_of};
ghost use Rattle.run_act.specs.Act.{Acts, Touched};

use address::control::Control;
use csr_words::{COUNT, SSP};
use isa::{Kind, Width};
use product::{count, divide, extreme, multiply};
use run_form::Op;
use run_pages::{COUNT as PAGES, Page};
use step_effect::compute::one;
use step_effect::jump;
use word::{logic, order, shift, sum};

// Where pc goes on after a form that was carried out, and the index of the first byte that it stored, if it did.
#[derive(Clone, Copy)]
pub struct Acted {
    pub pc: u64,
    pub stored: Option<usize>,
}

// Done: pc goes on at `next`, and memory stays.
fn went(next: u64) -> Option<Acted>
    ensures { result ≡ Some (record { pc = next; stored = None }) }
{
    Some(Acted {
        pc: next,
        stored: None,
    })
}

// Done: rd takes v, and pc goes on at `next`.
fn wrote(x: &mut [u64; 32], rd: usize, v: u64, next: u64) -> Option<Acted>
    requires { rd < 32 }
    ensures { (result ≡ Some (record { pc = next; stored = None })) × (x.new ≡ put_of rd v x.old) }
{
    x[rd] = v;
    x[0] = 0;
    went(next)
}

// Done: rd takes v, and pc goes on at the next instruction.
pub fn computed(x: &mut [u64; 32], rd: usize, v: u64, pc: u64) -> Option<Acted>
    requires { rd < 32 }
    ensures { (result ≡ Some (record { pc = next_of pc; stored = None })) × (x.new ≡ put_of rd v x.old) }
{
    wrote(x, rd, v, sum::sum(pc, 4))
}

// To a target, with the link in rd.
fn jumped(x: &mut [u64; 32], rd: usize, link: u64, target: u64, pc: u64) -> Option<Acted>
    requires { rd < 32 }
    ensures { (w m : List ℕ) → Acts result (jal_of rd link target) x.old w m x.new w m }
{
    if target % 4 == 0 {
        return wrote(x, rd, link, target);
    }
    None
}

// A branch's effect writes 0 to register 0, which is 0 already.
fn branch(taken: bool, target: u64, pc: u64) -> Option<Acted>
    ensures { (x w m : List ℕ) → get_or x 0 0 ≡ 0 → Acts result (branch_of taken (next_of pc) target) x w m x w m }
{
    if taken {
        if target % 4 == 0 {
            return went(target);
        }
        return None;
    }
    went(sum::sum(pc, 4))
}

fn load(
    n: Width,
    sign: bool,
    rd: usize,
    a: u64,
    off: u64,
    x: &mut [u64; 32],
    pc: u64,
    c: Control,
    mem: &[u8],
    map: &[u64],
    pages: &mut [Page; PAGES],
) -> Option<Acted>
    requires { (length mem.now ≤ 2 ^ 20) × (rd < 32) × Remembers pages.old c map.now (length mem.now) }
    ensures does { (w : List ℕ) → Acts result (at_of (access.Load n sign)
        (place_of c kind.Load n (sum_of a off) map.now (length mem.now)) rd 0 0 0 (next_of pc) mem.now) x.old
        w mem.now x.new w mem.now }
    ensures stored { IfSome result (λ t. t.stored ≡ None) }
    ensures pages { Remembers pages.new c map.now (length mem.now) }
{
    if let Some(at) = run_pages::seek(pages, Kind::Load, n, sum::sum(a, off), c, mem, map) {
        let v = memory::extend(n, sign, memory::load(mem, at, n));
        return wrote(x, rd, v, sum::sum(pc, 4));
    }
    None
}

fn store(
    n: Width,
    a: u64,
    off: u64,
    v: u64,
    pc: u64,
    c: Control,
    mem: &mut [u8],
    map: &[u64],
    pages: &mut [Page; PAGES],
) -> Option<Acted>
    requires { (length mem.old ≤ 2 ^ 20) × Remembers pages.old c map.now (length mem.old) }
    ensures does { (x w : List ℕ) → Acts result (at_of (access.Store n)
        (place_of c kind.Store n (sum_of a off) map.now (length mem.old)) 0 0 v 0 (next_of pc) mem.old) x w
        mem.old x w mem.new }
    ensures stored { IfSome result (λ t. Touched t.stored mem.old mem.new) }
    ensures pages { Remembers pages.new c map.now (length mem.old) }
{
    if let Some(at) = run_pages::seek(pages, Kind::Store, n, sum::sum(a, off), c, mem, map) {
        memory::store(mem, at, n, v);
        return Some(Acted {
            pc: sum::sum(pc, 4),
            stored: Some(at),
        });
    }
    None
}

fn push(
    v: u64,
    w: &mut [u64; COUNT],
    pc: u64,
    c: Control,
    mem: &mut [u8],
    map: &[u64],
    pages: &mut [Page; PAGES],
) -> Option<Acted>
    requires { (length mem.old ≤ 2 ^ 20) × Remembers pages.old c map.now (length mem.old) }
    ensures does { (x : List ℕ) → Acts result (at_of access.Push (place_of c kind.Push Double (push_of (SSP of w.old))
        map.now (length mem.old)) 0 0 v (SSP of w.old) (next_of pc) mem.old) x w.old
        mem.old x w.new mem.new }
    ensures stored { IfSome result (λ t. Touched t.stored mem.old mem.new) }
    ensures pages { Remembers pages.new c map.now (length mem.old) }
{
    let top = sum::difference(w[SSP], 8);
    if let Some(at) = run_pages::seek(pages, Kind::Push, Width::Double, top, c, mem, map) {
        memory::store(mem, at, Width::Double, v);
        w[SSP] = top;
        return Some(Acted {
            pc: sum::sum(pc, 4),
            stored: Some(at),
        });
    }
    None
}

fn pop(
    v: u64,
    w: &mut [u64; COUNT],
    pc: u64,
    c: Control,
    mem: &[u8],
    map: &[u64],
    pages: &mut [Page; PAGES],
) -> Option<Acted>
    requires { (length mem.now ≤ 2 ^ 20) × Remembers pages.old c map.now (length mem.now) }
    ensures does { (x : List ℕ) → Acts result (at_of access.Pop (place_of c kind.Pop Double (SSP of w.old)
        map.now (length mem.now)) 0 v 0 (SSP of w.old) (next_of pc) mem.now) x w.old
        mem.now x w.new mem.now }
    ensures stored { IfSome result (λ t. t.stored ≡ None) }
    ensures pages { Remembers pages.new c map.now (length mem.now) }
{
    let top = w[SSP];
    if let Some(at) = run_pages::seek(pages, Kind::Pop, Width::Double, top, c, mem, map) {
        if memory::load(mem, at, Width::Double) == v {
            w[SSP] = sum::sum(top, 8);
            return went(sum::sum(pc, 4));
        }
    }
    None
}

// a and r are the values of the form's two registers.
pub fn act(
    op: Op,
    rd: usize,
    a: u64,
    r: u64,
    v: u64,
    x: &mut [u64; 32],
    w: &mut [u64; COUNT],
    pc: u64,
    c: Control,
    mem: &mut [u8],
    map: &[u64],
    pages: &mut [Page; PAGES],
) -> Option<Acted>
    requires { (length mem.old ≤ 2 ^ 20) × (rd < 32) × (get_or x.old 0 0 ≡ 0) × Remembers pages.old c map.now (length mem.old) }
    ensures does { Acts result (does_of op rd a r v pc (SSP of w.old) c mem.old map.now) x.old
        w.old mem.old x.new w.new mem.new }
    ensures pages { Remembers pages.new c map.now (length mem.old) }
{
    let b = sum::sum(r, v);
    match op {
        Op::Add => computed(x, rd, sum::sum(a, b), pc),
        Op::Sub => computed(x, rd, sum::difference(a, b), pc),
        Op::Sll => computed(x, rd, shift::left::<64>(a, b), pc),
        Op::Slt => computed(x, rd, one(order::signed_less(a, b)), pc),
        Op::Sltu => computed(x, rd, one(order::unsigned_less(a, b)), pc),
        Op::Xor => computed(x, rd, logic::xor(a, b), pc),
        Op::Srl => computed(x, rd, shift::right::<64>(a, b), pc),
        Op::Sra => computed(x, rd, shift::arithmetic::<64>(a, b), pc),
        Op::Or => computed(x, rd, logic::or(a, b), pc),
        Op::And => computed(x, rd, logic::and(a, b), pc),
        Op::Mul => computed(x, rd, multiply::product::<64>(a, b), pc),
        Op::Mulh => computed(x, rd, multiply::upper(true, true, a, b), pc),
        Op::Mulhsu => computed(x, rd, multiply::upper(true, false, a, b), pc),
        Op::Mulhu => computed(x, rd, multiply::upper(false, false, a, b), pc),
        Op::Div => computed(x, rd, divide::quotient::<64>(true, a, b), pc),
        Op::Divu => computed(x, rd, divide::quotient::<64>(false, a, b), pc),
        Op::Rem => computed(x, rd, divide::remainder::<64>(true, a, b), pc),
        Op::Remu => computed(x, rd, divide::remainder::<64>(false, a, b), pc),
        Op::Min => computed(x, rd, extreme::smaller(true, a, b), pc),
        Op::Minu => computed(x, rd, extreme::smaller(false, a, b), pc),
        Op::Max => computed(x, rd, extreme::larger(true, a, b), pc),
        Op::Maxu => computed(x, rd, extreme::larger(false, a, b), pc),
        Op::Clz => computed(x, rd, count::leading::<64>(a), pc),
        Op::Ctz => computed(x, rd, count::trailing::<64>(a), pc),
        Op::Cpop => computed(x, rd, count::set::<64>(a), pc),
        Op::Addw => computed(x, rd, sum::sum_word(a, b), pc),
        Op::Subw => computed(x, rd, sum::difference_word(a, b), pc),
        Op::Sllw => computed(x, rd, shift::left::<32>(a, b), pc),
        Op::Srlw => computed(x, rd, shift::right::<32>(a, b), pc),
        Op::Sraw => computed(x, rd, shift::arithmetic::<32>(a, b), pc),
        Op::Mulw => computed(x, rd, multiply::product::<32>(a, b), pc),
        Op::Divw => computed(x, rd, divide::quotient::<32>(true, a, b), pc),
        Op::Divuw => computed(x, rd, divide::quotient::<32>(false, a, b), pc),
        Op::Remw => computed(x, rd, divide::remainder::<32>(true, a, b), pc),
        Op::Remuw => computed(x, rd, divide::remainder::<32>(false, a, b), pc),
        Op::Clzw => computed(x, rd, count::leading::<32>(a), pc),
        Op::Ctzw => computed(x, rd, count::trailing::<32>(a), pc),
        Op::Cpopw => computed(x, rd, count::set::<32>(a), pc),
        Op::Jal => jumped(x, rd, sum::sum(pc, 4), v, pc),
        Op::Jalr => jumped(x, rd, sum::sum(pc, 4), jump::even(sum::sum(a, v)), pc),
        Op::Beq => branch(a == r, v, pc),
        Op::Bne => branch(!(a == r), v, pc),
        Op::Blt => branch(order::signed_less(a, r), v, pc),
        Op::Bge => branch(!order::signed_less(a, r), v, pc),
        Op::Bltu => branch(order::unsigned_less(a, r), v, pc),
        Op::Bgeu => branch(!order::unsigned_less(a, r), v, pc),
        Op::Lb => load(Width::Byte, true, rd, a, v, x, pc, c, mem, map, pages),
        Op::Lh => load(Width::Half, true, rd, a, v, x, pc, c, mem, map, pages),
        Op::Lw => load(Width::Word, true, rd, a, v, x, pc, c, mem, map, pages),
        Op::Ld => load(Width::Double, true, rd, a, v, x, pc, c, mem, map, pages),
        Op::Lbu => load(Width::Byte, false, rd, a, v, x, pc, c, mem, map, pages),
        Op::Lhu => load(Width::Half, false, rd, a, v, x, pc, c, mem, map, pages),
        Op::Lwu => load(Width::Word, false, rd, a, v, x, pc, c, mem, map, pages),
        Op::Sb => store(Width::Byte, a, v, r, pc, c, mem, map, pages),
        Op::Sh => store(Width::Half, a, v, r, pc, c, mem, map, pages),
        Op::Sw => store(Width::Word, a, v, r, pc, c, mem, map, pages),
        Op::Sd => store(Width::Double, a, v, r, pc, c, mem, map, pages),
        Op::Push => push(r, w, pc, c, mem, map, pages),
        Op::Pop => pop(a, w, pc, c, mem, map, pages),
        Op::ReadSsp => computed(x, rd, w[SSP], pc),
        Op::Left => None,
    }
}
