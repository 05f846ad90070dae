// What it is that an instruction was done in place, or left undone: definitions and their laws, no function. The quick way's
// accesses (`run_moves`) and what a form does (`run_act`) stand above, and neither has to wait for the other to be proved.
#![tactic(auto)]
