// Loads, stores and the shadow stack: whether the instruction is on, then its place, and then what it does there.
ghost use Rattle.std.specs.Prelude.{◌≡◌, ◌^◌, ◌≤◌, length};
ghost use Rattle.isa.specs.Size.{width_of};
ghost use Rattle.address_place.specs.declared.Physical.{Physical};
ghost use Rattle.address_place.specs.Place.{Within};
ghost use Rattle.step_transfer.specs.Access.{gate_of_instruction, address_of, popped_of, done_of, at_of, access_of};

use address::{Virtual, kind, stack};
use address_place::{Physical, steps};
use csr_setting::Setting;
use isa::{Access, Exception, Width, size};
use step_effect::{Effect, system};
use word::sum;

// Whether an instruction makes its access, is a Zimop word that is off, or is illegal.
#[derive(Clone, Copy)]
pub enum Gate {
    Open,
    Off,
    Illegal,
}

// What a word of Zimop is, where the shadow stack is on and where it is off; and a swap, where it is permitted and where it is not.
fn gate_of(a: Access, shadow: bool, permitted: bool) -> Gate
    ensures { result ≡ gate_of_instruction a shadow permitted }
{
    match a {
        Access::Load(_, _) | Access::Store(_) => Gate::Open,
        Access::Push | Access::Pop => if shadow { Gate::Open } else { Gate::Off },
        Access::Swap(_, _, _) => if permitted { Gate::Open } else { Gate::Illegal },
    }
}

// The address of an access, where `at` is rs1 with the offset added.
fn address(a: Access, at: u64, ssp: u64) -> Virtual
    ensures { result.0 ≡ address_of a at ssp }
{
    match a {
        Access::Load(_, _) | Access::Store(_) | Access::Swap(_, _, _) => Virtual(at),
        Access::Push => stack::push(ssp),
        Access::Pop => Virtual(ssp),
    }
}

// A pop-check that found `top`.
fn popped(top: u64, v: u64, ssp: u64, next: u64) -> Effect
    ensures { result ≡ popped_of top v ssp next }
{
    let up = sum::sum(ssp, 8);
    if top == v {
        return Effect::Pop(up, next);
    }
    Effect::Trap(18, 3)
}

// What an access does at its place; a and b are the values of rs1 and rs2.
fn done(k: Access, q: Physical, rd: u8, a: u64, b: u64, ssp: u64, next: u64, mem: &[u8]) -> Effect
    requires { Within (length mem.now) (width_of k) q.0 }
    ensures { result ≡ done_of k q rd a b ssp next mem.now }
{
    match k {
        Access::Load(w, sign) => {
            let v = memory::load(mem, q.index(), w);
            Effect::Write(rd, memory::extend(w, sign, v), next)
        }
        Access::Store(w) => Effect::Store(q, w, b, next),
        Access::Push => Effect::Push(q, b, sum::difference(ssp, 8), next),
        Access::Pop => popped(memory::load(mem, q.index(), Width::Double), a, ssp, next),
        Access::Swap(w, _, _) => {
            let v = memory::load(mem, q.index(), w);
            Effect::Swap(rd, memory::extend(w, true, v), q, w, b, next)
        }
    }
}

fn at(
    k: Access,
    p: Result<Physical, Exception>,
    rd: u8,
    a: u64,
    b: u64,
    ssp: u64,
    next: u64,
    mem: &[u8],
) -> Effect
    requires { (q : Physical) → p ≡ Ok q → Within (length mem.now) (width_of k) q.0 }
    ensures { result ≡ at_of k p rd a b ssp next mem.now }
{
    match p {
        Ok(q) => done(k, q, rd, a, b, ssp, next, mem),
        Err(e) => Effect::Trap(e.cause, e.tval),
    }
}

// A memory instruction; a and b are the values of rs1 and rs2.
pub fn access(
    k: Access,
    word: u32,
    rd: u8,
    a: u64,
    b: u64,
    off: u64,
    ssp: u64,
    next: u64,
    s: Setting,
    mem: &[u8],
    map: &[u64],
) -> Effect
    requires { length mem.now ≤ 2 ^ 20 }
    ensures { result ≡ access_of k word rd a b off ssp next s mem.now map.now }
{
    match gate_of(k, s.shadow, s.permitted) {
        Gate::Open => {
            let to = address(k, sum::sum(a, off), ssp);
            let p = steps::translate(s.control, kind::kind(k), size::width(k), to, map, mem);
            at(k, p, rd, a, b, ssp, next, mem)
        }
        Gate::Off => Effect::Write(rd, 0, next),
        Gate::Illegal => system::illegal(word),
    }
}
