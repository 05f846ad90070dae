// What a step's effect comes from, and what a step in user mode keeps: definitions and laws with no function, on which both theorems over
// stretches of steps stand: the shadow stack's promise (`theorem_shadow`), and what a user program can't see (`theorem_isolation`).
#![tactic(auto)]
