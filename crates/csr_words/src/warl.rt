// What a read of a CSR shows and what a write leaves.
ghost use Rattle.std.specs.Prelude.{◌≡◌};
ghost use Rattle.csr_words.specs.Warl.{shown_of, csr_write_of};

use super::{COUNT, MENVCFG, slot};
use csr::{Csr, warl};
use csr_access::enable;

// What a read of CSR n shows.
#[tactic(auto, unfolding(crate::specs::Warl::shown_of))]
pub fn shown(w: &[u64; COUNT], n: Csr) -> u64
    ensures { result ≡ shown_of n w.now }
{
    let k = slot(n);
    warl::read(n, enable::sse(w[MENVCFG]), w[k])
}

// A write of v to CSR n.
#[tactic(auto, unfolding(crate::specs::Warl::written_of))]
pub fn write(w: &mut [u64; COUNT], n: Csr, v: u64)
    ensures { w.new ≡ csr_write_of n v w.old }
{
    let k = slot(n);
    w[k] = warl::write(n, enable::sse(w[MENVCFG]), w[k], v);
}
