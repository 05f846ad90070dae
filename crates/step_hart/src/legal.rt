// Refusal 1: the harts that a call takes.
ghost use Rattle.std.specs.Prelude.{◌≡◌};
ghost use Rattle.step_hart.specs.Hart.{hart, legal};

use csr_words::{COUNT, legal};

// Whether refusal 1 lets the hart of these words pass.
pub fn of_words(x: &[u64; 32], w: &[u64; COUNT]) -> bool
    ensures { result ≡ legal (hart x.now w.now) }
{
    x[0] == 0 && legal::legal(w)
}
