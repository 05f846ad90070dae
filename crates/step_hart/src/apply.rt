// An effect, on a hart's registers and words and on memory, which are lent and changed in place.
ghost use Rattle.std.specs.Prelude.{false, ◌≡◌, length};
ghost use Rattle.csr_words.specs.Setting.{setting_of};
ghost use Rattle.step_effect.specs.Effect.{Stays};
ghost use Rattle.step_transfer.specs.Commit.{memory_of};
ghost use Rattle.step_hart.specs.Hart.{hart};
ghost use Rattle.step_hart.specs.Step.{csr_of, privileged_of, apply_of, traps_of, cause_of, trap_told};

use csr::Csr;
use csr_words::{COUNT, ELP, PC, SSP, returns, setting, slot, trap, warl};
use isa::{CsrOperation, Width};
use step_effect::{Effect, Privileged, csrs, register};

// What a step tells: the trap's cause if it trapped, and whether what the mode and CSRs say may have changed.
#[derive(Clone, Copy)]
pub struct Done {
    pub trap: Option<u64>,
    pub switched: bool,
}

// Nine arms end so; a literal has four lines.
fn says(trap: Option<u64>, switched: bool) -> Done
    ensures { result ≡ record { trap = trap; switched = switched } }
{
    Done { trap, switched }
}

// rd takes what the CSR showed, and the CSR what the instruction writes; whether what the mode and CSRs say may have changed.
fn csr(
    x: &mut [u64; 32],
    w: &mut [u64; COUNT],
    o: CsrOperation,
    n: Csr,
    writes: bool,
    v: u64,
    rd: u8,
    next: u64,
) -> bool
    ensures registers { x.new ≡ (csr_of o n writes v rd next (hart x.old w.old)).x }
    ensures words { w.new ≡ (csr_of o n writes v rd next (hart x.old w.old)).words }
    ensures setting { result ≡ false → setting_of w.new ≡ setting_of w.old }
{
    let old = warl::shown(w, n);
    register::put(x, rd, old);
    if writes {
        warl::write(w, n, csrs::merged(o, old, v));
        w[PC] = next;
        return setting::switched(slot(n));
    }
    w[PC] = next;
    false
}

// What changes more of a hart than registers, pc, ELP and ssp; whether what the mode and CSRs say may have changed.
fn privileged(x: &mut [u64; 32], w: &mut [u64; COUNT], k: Privileged) -> bool
    ensures registers { x.new ≡ (privileged_of k (hart x.old w.old)).x }
    ensures words { w.new ≡ (privileged_of k (hart x.old w.old)).words }
    ensures setting { result ≡ false → setting_of w.new ≡ setting_of w.old }
{
    match k {
        Privileged::Csr(o, n, writes, v, rd, next) => csr(x, w, o, n, writes, v, rd, next),
        Privileged::Mret => {
            returns::mret(w);
            true
        }
        Privileged::Sret => {
            returns::sret(w);
            true
        }
    }
}

// The one function that applies an effect.
pub fn apply(x: &mut [u64; 32], w: &mut [u64; COUNT], mem: &mut [u8], e: Effect) -> Done
    requires { Stays e (length mem.old) }
    ensures registers { x.new ≡ (apply_of e (hart x.old w.old)).x }
    ensures words { w.new ≡ (apply_of e (hart x.old w.old)).words }
    ensures memory { mem.new ≡ memory_of e mem.old }
    ensures told { result.trap ≡ trap_told (traps_of e) (cause_of e) }
    ensures setting { result.switched ≡ false → setting_of w.new ≡ setting_of w.old }
{
    match e {
        Effect::Write(rd, v, next) => {
            register::put(x, rd, v);
            w[PC] = next;
            says(None, false)
        }
        Effect::Jump(rd, v, next, pad) => {
            register::put(x, rd, v);
            w[PC] = next;
            w[ELP] = u64::from(pad);
            says(None, false)
        }
        Effect::Pad(next) => {
            w[PC] = next;
            w[ELP] = 0;
            says(None, false)
        }
        Effect::Store(q, width, v, next) => {
            memory::store(mem, q.index(), width, v);
            w[PC] = next;
            says(None, false)
        }
        Effect::Push(q, v, top, next) => {
            memory::store(mem, q.index(), Width::Double, v);
            w[PC] = next;
            w[SSP] = top;
            says(None, false)
        }
        Effect::Pop(top, next) => {
            w[PC] = next;
            w[SSP] = top;
            says(None, false)
        }
        Effect::Swap(rd, v, q, width, stored, next) => {
            memory::store(mem, q.index(), width, stored);
            register::put(x, rd, v);
            w[PC] = next;
            says(None, false)
        }
        Effect::Privileged(k) => {
            let switched = privileged(x, w, k);
            says(None, switched)
        }
        Effect::Trap(cause, tval) => {
            let number = cause as u64;
            trap::enter(w, number, tval);
            says(Some(number), true)
        }
    }
}
