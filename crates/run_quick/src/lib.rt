// The quick way: the common instructions, done in place on lent registers and memory, one word after the other. Each major opcode's
// words are read by the decoder's own function for it, and what is done is what `step_meaning` says. An instruction that traps, or that is
// none of these, is left undone and changes nothing: it takes the slow path, by `step_execute::plan`.
//
// Its own crate, since it is a second way to the same effects: the definitions are those of `step_meaning`, and nothing here adds to them.
#![tactic(auto)]

// What touches the registers and pc alone: RV64I, M, and what is taken from Zbb. Loads and stores are crate `run_moves`'s.
mod compute;
// The fetch, and the major opcodes.
pub mod opcodes;
