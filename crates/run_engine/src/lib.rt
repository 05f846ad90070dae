// The run's engine, on a hart's registers and words, which are lent and changed in place: its loop. The quick way through it is crate `run_glide`, the fast path
// crate `run_fast`, and a step by the slow path `step_hart::step::one`.
#![tactic(auto)]

pub mod run;
