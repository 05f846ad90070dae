// What the cases of the program `test_cases` on a hart run: CSRs, refusal 1, traps and returns, the enables and the regime; and a hart as
// the numbers of a case.
#![tactic(auto)]

// What is done to a hart.
pub mod operation;
// The numbers of a hart.
pub mod state;
