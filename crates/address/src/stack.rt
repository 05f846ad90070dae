// Where a push goes: ssp - 8. (A pop-check goes to ssp itself.)
ghost use Rattle.std.specs.Prelude.{◌≡◌};
ghost use Rattle.address.specs.Stack.{push_of};

use super::Virtual;
use word::sum;

pub fn push(ssp: u64) -> Virtual
    ensures { result.0 ≡ push_of ssp }
{
    Virtual(sum::difference(ssp, 8))
}
