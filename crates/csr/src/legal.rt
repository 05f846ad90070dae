// Which words a CSR can hold.
ghost use Rattle.std.specs.Prelude.{◌≡◌, true};
ghost use Rattle.word.specs.Row.{row_legal_of};
ghost use Rattle.csr.specs.Row.{row_of};

use super::{Csr, warl};
use csr_status::warl as mstatus;

// Whether CSR n can hold the word m: exactly where a write of m, over a word that it can hold, leaves m. Such a word is 0, but for mstatus,
// of which sstatus is a view: there it is the one with nothing set, UXL and SXL 2.
#[tactic(auto, using(crate::proofs::Made::tested, crate::proofs::Made::tested_status))]
pub fn legal(n: Csr, m: u64) -> bool
    ensures { result ≡ row_legal_of (row_of n true) m }
{
    match n {
        Csr::Sstatus | Csr::Mstatus => mstatus::write(0xa_0000_0000, m) == m,
        _ => warl::write(n, true, 0, m) == m,
    }
}
