// MRET and SRET, in place.
ghost use Rattle.std.specs.Prelude.{◌≡◌};
ghost use Rattle.csr_words.specs.Return.{back_in, mret_of, sret_of};

use super::{COUNT, ELP, MENVCFG, MEPC, MODE, MSECCFG, MSTATUS, PC, SENVCFG, SEPC};
use csr_access::enable;
use csr_trap::returns;
use isa::Mode;

// In mode `new` at `to`, with mstatus m.
#[tactic(auto, unfolding(crate::specs::Return::back_in))]
fn back_in(w: &mut [u64; COUNT], new: Mode, saved: bool, m: u64, to: u64)
    ensures { w.new ≡ back_in w.old new saved m to }
{
    w[ELP] = u64::from(enable::pad(new, w[MENVCFG], w[SENVCFG], w[MSECCFG]) && saved);
    w[MODE] = u64::from(new);
    w[MSTATUS] = m;
    w[PC] = to;
}

// MRET: to MPP at mepc, with MPELP.
#[tactic(auto, unfolding(crate::specs::Return::mret_of))]
pub fn mret(w: &mut [u64; COUNT])
    ensures { w.new ≡ mret_of w.old }
{
    let m = w[MSTATUS];
    let to = w[MEPC];
    back_in(
        w,
        returns::mpp_mode(m),
        m / 0x200_0000_0000 % 2 == 1,
        returns::leave_m(m),
        to,
    );
}

// SRET: to SPP at sepc, with SPELP.
#[tactic(auto, unfolding(crate::specs::Return::sret_of))]
pub fn sret(w: &mut [u64; COUNT])
    ensures { w.new ≡ sret_of w.old }
{
    let m = w[MSTATUS];
    let to = w[SEPC];
    back_in(
        w,
        returns::spp_mode(m),
        m / 0x80_0000 % 2 == 1,
        returns::leave_s(m),
        to,
    );
}
