// What the CSRs let a mode do, on numbers: what they switch on, which address names which CSR and which mode may touch it,
// and cause and tval of what an instruction is refused or asks for by itself.
#![tactic(auto)]

pub mod enable;
pub mod exception;
pub mod reach;
