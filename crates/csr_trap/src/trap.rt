// mstatus after a trap. A function for M and one for S, since they differ in fields and in no constant.
ghost use Rattle.std.specs.Prelude.{◌≡◌};
ghost use Rattle.csr_trap.specs.Trap.{enter_m_of, enter_s};

use csr_status::{Status, pack};
use isa::Mode;

// mstatus after a trap to M, out of mode `from`.
#[tactic(auto, unfolding(crate::specs::Trap::enter_m_of))]
pub fn enter_m(m: u64, from: Mode, elp: bool) -> u64
    ensures { result ≡ enter_m_of m from elp }
{
    let s = pack::split(m);
    pack::word(Status {
        mie: false,
        mpie: s.mie,
        mpp: u64::from(from),
        mpelp: elp,
        ..s
    })
}

// mstatus after a trap to S, out of mode `from`.
#[tactic(auto, unfolding(crate::specs::Trap::enter_s))]
pub fn enter_s(m: u64, from: Mode, elp: bool) -> u64
    ensures { result ≡ enter_s m from elp }
{
    let s = pack::split(m);
    pack::word(Status {
        sie: false,
        spie: s.sie,
        spp: matches!(from, Mode::Supervisor),
        spelp: elp,
        ..s
    })
}
