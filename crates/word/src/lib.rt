// The arithmetic of words that instructions need: the fields of an instruction word, its immediates,
// sums, order, shifts and logic on 64 and 32 bits. Nothing here knows an instruction.
#![tactic(auto)]

// A choice between an old and a new value.
pub mod choice;
// The fields of an instruction word.
pub mod field;
// The five immediates of RV64I.
pub mod immediate;
// and, or, xor.
pub mod logic;
// Signed and unsigned order.
pub mod order;
// The three shifts, of 64 and of 32 bits.
pub mod shift;
// The low bits of a number, with their sign or without.
pub mod sign;
// Sums and differences that wrap, and their word forms.
pub mod sum;
