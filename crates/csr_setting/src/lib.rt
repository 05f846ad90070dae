// What a mode and the words of the CSRs switch on: the enables, and the regime of accesses, which translation needs to know; which
// CSR an address names there; and which numbers are a mode. All take numbers, so that a step need not pass its hart; a struct
// of them would be filled at each of its two callers, from the array of names that stands above.
#![tactic(auto)]

pub mod legal;
pub mod reach;

ghost use Rattle.std.specs.Prelude.{◌≡◌};
ghost use Rattle.csr_setting.specs.Regime.{control_of, shadow_on, pad_on};

use address::control::Control;
use csr_access::enable;
use csr_trap::returns;
use isa::Mode;

// What a hart's mode and CSRs say about an instruction, beside its accesses: the active shadow enable, whether ssp
// may be touched as a CSR (and the swap is legal), and the pad enable.
#[derive(Clone, Copy)]
pub struct Setting {
    pub control: Control,
    pub shadow: bool,
    pub permitted: bool,
    pub pad: bool,
}

// The regime of accesses.
#[tactic(auto, unfolding(crate::specs::Regime::control_of))]
pub fn control(
    mode: u64,
    mstatus: u64,
    satp: u64,
    menvcfg: u64,
    senvcfg: u64,
    mseccfg: u64,
) -> Control
    ensures { result ≡ control_of mode mstatus satp menvcfg senvcfg mseccfg }
{
    Control {
        mode: Mode::from(mode),
        mprv: mstatus / 0x2_0000 % 2 == 1,
        mpp: returns::mpp_mode(mstatus),
        sv39: satp / 0x1000_0000_0000_0000 == 8,
        sum: mstatus / 0x4_0000 % 2 == 1,
        mxr: mstatus / 0x8_0000 % 2 == 1,
        sse: enable::sse(menvcfg),
        upmm: (senvcfg / 0x1_0000_0000 % 4) as u8,
        spmm: (menvcfg / 0x1_0000_0000 % 4) as u8,
        mpmm: (mseccfg / 0x1_0000_0000 % 4) as u8,
    }
}

// The active shadow enable.
#[tactic(auto, unfolding(crate::specs::Regime::shadow_on))]
pub fn shadow(mode: u64, menvcfg: u64, senvcfg: u64) -> bool
    ensures { result ≡ shadow_on mode menvcfg senvcfg }
{
    enable::shadow(Mode::from(mode), menvcfg, senvcfg)
}

// The pad enable.
#[tactic(auto, unfolding(crate::specs::Regime::pad_on))]
pub fn pad(mode: u64, menvcfg: u64, senvcfg: u64, mseccfg: u64) -> bool
    ensures { result ≡ pad_on mode menvcfg senvcfg mseccfg }
{
    enable::pad(Mode::from(mode), menvcfg, senvcfg, mseccfg)
}
