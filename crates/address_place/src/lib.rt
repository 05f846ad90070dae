// From address to byte: who may touch what, and where it stands in memory. Steps 1 to 9 are rules 7.1 to 7.9 of docs/HART.md.
//
// Nothing here knows a hart: a `Control` of crate `address` is what a hart's mode and CSRs say about accesses.
#![tactic(auto)]

ghost use Rattle.std.specs.Prelude.{◌≡◌, ◌-◌, ◌≤◌};
ghost use Rattle.address_place.specs.Place.{base};

// The nine steps in their order.
pub mod steps;
// A stretch of fetches.
pub mod window;

// The physical address of memory's first byte.
const BASE: u64 = 0x8000_0000;

// An address of memory, whose first byte has 0x80000000. No other crate can make one.
#[derive(Clone, Copy)]
pub struct Physical(u64);

impl Physical {
    // The address as a number, for those who show it.
    pub fn number(self) -> u64
        ensures { result ≡ self.0 }
    {
        self.0
    }

    // Where in memory it stands: the index of its byte.
    pub fn index(self) -> usize
        requires { base ≤ self.0 }
        ensures { result ≡ self.0 - base }
    {
        (self.0 - BASE) as usize
    }
}
