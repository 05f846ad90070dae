// Trap entry, in place.
ghost use Rattle.std.specs.Prelude.{◌≡◌, ◌<◌};
ghost use Rattle.isa.specs.Mode.{number_of};
ghost use Rattle.csr_words.specs.Words.{◌of◌, ◌but◌≔◌, COUNT, PC, MODE, ELP, MSTATUS};
ghost use Rattle.csr_words.specs.Trap.{trap_of};

use super::{
    COUNT, ELP, MCAUSE, MEDELEG, MEPC, MODE, MSTATUS, MTVAL, MTVEC, PC, SCAUSE, SEPC, STVAL, STVEC,
};
use csr_trap::{route, trap};
use isa::Mode;

// Into mode `to`, at what the word TVEC holds: EPC takes pc, CAUSE and TVAL what they are given, mstatus becomes m, and ELP is cleared.
fn to_mode<const TVEC: usize, const EPC: usize, const CAUSE: usize, const TVAL: usize>(
    w: &mut [u64; COUNT],
    to: Mode,
    m: u64,
    cause: u64,
    tval: u64,
)
    requires { (TVEC < COUNT) × (EPC < COUNT) × (CAUSE < COUNT) × (TVAL < COUNT) }
    ensures { w.new ≡ (w.old but MSTATUS ≔ m but EPC ≔ PC of w.old but CAUSE ≔ cause but TVAL ≔ tval but ELP ≔ 0
        but MODE ≔ number_of to but PC ≔ TVEC of w.old) }
{
    let pc = w[PC];
    let handler = w[TVEC];
    w[MSTATUS] = m;
    w[EPC] = pc;
    w[CAUSE] = cause;
    w[TVAL] = tval;
    w[ELP] = 0;
    w[MODE] = u64::from(to);
    w[PC] = handler;
}

// A trap of the instruction at pc.
#[tactic(auto, unfolding(crate::specs::Trap::trap_of, crate::specs::Trap::trap_m, crate::specs::Trap::trap_s))]
pub fn enter(w: &mut [u64; COUNT], cause: u64, tval: u64)
    ensures { w.new ≡ trap_of w.old cause tval }
{
    let from = Mode::from(w[MODE]);
    let elp = w[ELP] == 1;
    if route::to_s(from, route::delegated(w[MEDELEG], cause)) {
        let m = trap::enter_s(w[MSTATUS], from, elp);
        to_mode::<STVEC, SEPC, SCAUSE, STVAL>(w, Mode::Supervisor, m, cause, tval);
    } else {
        let m = trap::enter_m(w[MSTATUS], from, elp);
        to_mode::<MTVEC, MEPC, MCAUSE, MTVAL>(w, Mode::Machine, m, cause, tval);
    }
}
