// What the way from address to byte is made of: the parts of its nine steps (docs/HART.md, 7.1 to 7.9) that need neither the page map
// nor memory. The steps in their order, and where they lead, are crate `address_place`.
//
// Nothing here knows a hart: `Control` is what a hart's mode and CSRs say about accesses.
#![tactic(auto)]

// The kind of access that a memory instruction makes.
pub mod kind;
// Step 1, and what goes by the effective mode.
pub mod control;
// Step 2.
pub mod mask;
// Step 3.
pub mod align;
// Where a push goes.
pub mod stack;
// The causes of faults.
pub mod cause;

// An address as the program names it. A `Physical` of crate `address_place` is made from one by translation alone.
#[derive(Clone, Copy)]
pub struct Virtual(pub u64);
