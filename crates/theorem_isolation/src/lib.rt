// What a user program can't see (rules 13.10 to 13.15): the statement stands in specs/Unseen.antt, its proof in proofs/. There is no code: the
// theorem speaks of the definitions that the code of `run_machine` is proved to meet.
#![tactic(auto)]
