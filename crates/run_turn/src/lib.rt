// What a turn of a run's loop promises, and several in a row, where steps are taken in place; and that what was applied is a step: definitions and their laws,
// no function. The quick way (`run_glide`) and the fast path (`run_fast`) stand above, and neither has to wait for the other to be proved.
#![tactic(auto)]

// pc after the steps taken, and what is left of the budget.
#[derive(Clone, Copy)]
pub struct Glided {
    pub pc: u64,
    pub left: u64,
}
