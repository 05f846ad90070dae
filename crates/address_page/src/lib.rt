// Pages: the page map that the host lends, with refusal 3, and what a leaf of it is judged by: the kind of access and the regime.
//
// Lookup of a page number and judgement of a leaf (crate `address_judge`) are kept apart: how an entry is found can change without a
// word about what it permits.
#![tactic(auto)]

use isa::Mode;

// What the rules ask of a kind of access.
pub mod kinds;
// The page map: lookup of a page number, and refusal 3.
pub mod map;

// What a leaf is judged by, beside the kind of access: the effective mode, SUM, MXR and menvcfg.SSE.
#[derive(Clone, Copy)]
pub struct Regime {
    pub mode: Mode,
    pub sum: bool,
    pub mxr: bool,
    pub sse: bool,
}
