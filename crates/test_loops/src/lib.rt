// Three loops of 4,000,000 instructions each, and how each is to end; crate `test_laps` runs them.
#![tactic(auto)]

// Calls with landing pads, pushes and pop-checks, in U under Sv39.
pub mod calls;
// Loads and stores.
pub mod doubles;
// A loop with its end, chained runs, and the numbers of what came of them.
pub mod lap;
// Registers only.
pub mod registers;
