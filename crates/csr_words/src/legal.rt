// Refusal 1, of the words.
ghost use Rattle.std.specs.Prelude.{◌≡◌};
ghost use Rattle.csr_words.specs.Legal.{csrs_legal, words_legal};

use super::{COUNT, ELP, MODE, PC, SSP, slot};
use csr::{Csr, legal};
use csr_setting::legal::is_mode;

// Whether each CSR holds a value that a write could leave. Scratch, cause and tval hold any.
fn csrs(w: &[u64; COUNT]) -> bool
    ensures { result ≡ csrs_legal w.now }
{
    let held = |n: Csr| legal::legal(n, w[slot(n)]);
    held(Csr::Stvec)
        && held(Csr::Senvcfg)
        && held(Csr::Sepc)
        && held(Csr::Satp)
        && held(Csr::Mstatus)
        && held(Csr::Medeleg)
        && held(Csr::Mtvec)
        && held(Csr::Menvcfg)
        && held(Csr::Mepc)
        && held(Csr::Mseccfg)
}

// Whether refusal 1 lets the words pass.
#[tactic(auto, unfolding(crate::specs::Legal::words_legal))]
pub fn legal(w: &[u64; COUNT]) -> bool
    ensures { result ≡ words_legal w.now }
{
    w[PC] % 4 == 0 && is_mode(w[MODE]) && w[ELP] < 2 && w[SSP] % 8 == 0 && csrs(w)
}
