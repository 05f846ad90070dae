// What the cases of the program `test_cases` run on one rule below a hart: masking, places, loads and stores, refusals 2 and 3.
//
// Each kind of case is a module with a function `run`: it is lent the given numbers of a line, and answers the numbers that came of
// them, or that the given numbers are not those of such a case.
#![tactic(auto)]

// Loads and stores.
pub mod bytes;
// What a number says that is 0 or 1.
mod flag;
// Pointer masking alone.
pub mod mask;
// From address to byte.
pub mod places;
// Refusals 2 and 3.
pub mod refused;
// The width that a number of bytes names.
mod width;
