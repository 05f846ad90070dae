// The effect of one instruction, and of a step up to it: the fetch, the landing pad check, decoding. Nothing here knows a hart, and
// nothing here changes anything.
#![tactic(auto)]

// One instruction.
mod instruction;
// The fetch, the landing pad check, and then the instruction.
pub mod plan;
