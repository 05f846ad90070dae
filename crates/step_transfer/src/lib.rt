// What the instructions that transfer values between the registers and memory do: loads, stores, and the shadow stack's push, pop-check
// and swap. `access` reads lent slices and changes nothing: its answer is an effect.
#![tactic(auto)]

// Whether an access is made, where, and what it does there.
pub mod access;
