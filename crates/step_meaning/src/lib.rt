// What a step's instruction does, as definitions and their laws: no function stands here. The ways to it stand above, the slow path
// (`step_execute`), the quick way (`run_quick`, `run_csrs`) and the fast path (`run_form`), and none has to wait for another to be proved.
#![tactic(auto)]

use csr_setting::Setting;

// What is known beforehand about a stretch of steps: what the mode and CSRs say, and whether loads and stores are neither masked nor translated. The
// run's way passes it on by value, so that what else is remembered is a field more; no definition of a step speaks of it. The window of fetches
// stands apart: as a field it cost 12 machine instructions a step (docs/SPEED.md).
#[derive(Clone, Copy)]
pub struct Context {
    pub setting: Setting,
    pub flat: bool,
}

// Where a step takes its word from: it fetches at pc, or a word is given as if it had been fetched there. Two sources, and no Option: None would not say
// that a word is fetched.
#[derive(Clone, Copy)]
pub enum Source {
    Fetch,
    Given(u32),
}
