// mstatus: its fields as a struct and as a word, what a write leaves and a read shows of it, also through sstatus.
// Modes and their numbers stand here too, since MPP and SPP hold them. What a trap and a return make of it is crate `csr_trap`'s.
#![tactic(auto)]

pub mod pack;
pub mod warl;

#[derive(Clone, Copy)]
pub struct Status {
    pub sie: bool,
    pub mie: bool,
    pub spie: bool,
    pub mpie: bool,
    pub spp: bool,
    pub mpp: u64,
    pub mprv: bool,
    pub sum: bool,
    pub mxr: bool,
    pub spelp: bool,
    pub mpelp: bool,
}
