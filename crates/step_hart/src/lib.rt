// The hart: a value that each operation takes and hands back. Beside the registers it is a row of named words (crate `csr_words`), and each operation on
// it is one on these. Any value may be handed in: `legal` says which ones refusal 1 lets pass.
#![tactic(auto)]

use csr_words::COUNT;

pub mod apply;
pub mod legal;
pub mod methods;
pub mod step;

#[derive(Clone, Copy)]
pub struct Hart {
    pub x: [u64; 32],
    pub words: [u64; COUNT],
}
