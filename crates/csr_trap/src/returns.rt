// mstatus after a return, and the mode that a return goes to. Two functions each, since MRET and SRET differ in fields and in no constant.
ghost use Rattle.std.specs.Prelude.{◌≡◌};
ghost use Rattle.csr_trap.specs.Return.{leave_m_of, leave_s, mpp_mode_of, spp_mode_of};

use csr_status::{Status, pack};
use isa::Mode;

// mstatus after MRET. MPRV stays only where the new mode is M.
#[tactic(auto, unfolding(crate::specs::Return::leave_m_of))]
pub fn leave_m(m: u64) -> u64
    ensures { result ≡ leave_m_of m }
{
    let s = pack::split(m);
    pack::word(Status {
        mie: s.mpie,
        mpie: true,
        mpp: 0,
        mprv: s.mpp == 3 && s.mprv,
        mpelp: false,
        ..s
    })
}

// mstatus after SRET, whose new mode is never M.
#[tactic(auto, unfolding(crate::specs::Return::leave_s))]
pub fn leave_s(m: u64) -> u64
    ensures { result ≡ leave_s m }
{
    let s = pack::split(m);
    pack::word(Status {
        sie: s.spie,
        spie: true,
        spp: false,
        mprv: false,
        spelp: false,
        ..s
    })
}

// The mode that MRET goes to.
#[tactic(auto, unfolding(crate::specs::Return::mpp_mode_of))]
pub fn mpp_mode(m: u64) -> Mode
    ensures { result ≡ mpp_mode_of m }
{
    Mode::from(m / 0x800 % 4)
}

// The mode that SRET goes to.
#[tactic(auto, unfolding(crate::specs::Return::spp_mode_of))]
pub fn spp_mode(m: u64) -> Mode
    ensures { result ≡ spp_mode_of m }
{
    if m / 0x100 % 2 == 1 {
        Mode::Supervisor
    } else {
        Mode::User
    }
}
