// Which CSR an address names.
ghost use Rattle.std.specs.Prelude.{◌≡◌};
ghost use Rattle.csr_setting.specs.Reach.{csr_named_of};

use csr::Csr;
use csr_access::{enable, reach};
use isa::Mode;

// The CSR that an address names, or none, which is illegal, in a mode with these menvcfg and senvcfg.
#[tactic(auto, unfolding(crate::specs::Reach::csr_named_of))]
pub fn reached(mode: u64, menvcfg: u64, senvcfg: u64, address: u16) -> Option<Csr>
    ensures { result ≡ csr_named_of mode menvcfg senvcfg address }
{
    let m = Mode::from(mode);
    reach::reach(m, enable::permits(m, menvcfg, senvcfg), address)
}
