// Files of cases, a line at a time: what a line says, and what is printed of it. Nothing here knows what a
// case is about: a program hands over the numbers that its code gave.
#![tactic(auto)]

// Why a case cannot be run.
pub mod case;
// A file.
pub mod file;
// The reader of a line.
pub mod line;
// The names of a hart's numbers.
pub mod names;
// What is printed, and the counts.
pub mod report;
