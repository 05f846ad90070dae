// The shadow stack's promise (rules 13.1 to 13.9): the statement stands in specs/Promise.antt, its proof in proofs/. There is no code: the
// theorem speaks of the definitions that the code of `run_machine` is proved to meet.
#![tactic(auto)]
