// Step 3, alignment: an address is a multiple of the access's size.
ghost use Rattle.std.specs.Prelude.{◌≡◌};
ghost use Rattle.address.specs.Align.{aligned_of};

use super::Virtual;
use isa::{Width, size};

// The compiler knows that what `size::bytes` gives is a power of two: no machine division is left of this.
#[tactic(auto, unfolding(crate::specs::Align::aligned_of))]
pub fn aligned(w: Width, a: Virtual) -> bool
    ensures { result ≡ aligned_of w a.0 }
{
    a.0 % size::bytes(w) == 0
}
