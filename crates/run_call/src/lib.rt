// What a public call is: its answer, and refusals 1 to 4. The definitions of the three calls
// stand in specs/Call.antt. Who makes them is above: `run_machine`, and the boundary for C and Rust.
#![tactic(auto)]

ghost use Rattle.std.specs.Prelude.{◌≡◌, Some, None};
ghost use Rattle.step_hart.specs.Hart.{hart};
ghost use Rattle.run_call.specs.Call.{refusal_number, refusal_of, run_refusal_of};

use address_page::map;
use csr_words::COUNT;
use step_hart::{Hart, legal};

// Why a call was not taken: refusals 1 to 4 (docs/HART.md, 2.3 to 2.7).
#[derive(Clone, Copy, PartialEq, Eq, Debug)]
pub enum Refusal {
    Hart = 1,
    Memory = 2,
    Map = 3,
    Budget = 4,
}

impl Refusal {
    // The refusal's number.
    pub fn number(self) -> u64
        ensures { result ≡ refusal_number self }
    {
        self as u64
    }
}

// What a call answers. Where it was refused, the hart is the one handed in and count is 0. trap is the last trap's cause, if there was one.
#[derive(Clone, Copy)]
pub struct Answer {
    pub refusal: Option<Refusal>,
    pub hart: Hart,
    pub count: u64,
    pub trap: Option<u64>,
}

// Refusals 1 to 3, of the hart of these words: one by value would be copied to be asked.
pub fn step_refusal(x: &[u64; 32], w: &[u64; COUNT], mem: &[u8], map: &[u64]) -> Option<Refusal>
    ensures { result ≡ refusal_of (hart x.now w.now) mem.now map.now }
{
    if !legal::of_words(x, w) {
        return Some(Refusal::Hart);
    }
    if memory::refused(mem.len() as u64) {
        return Some(Refusal::Memory);
    }
    map::refused(map).then_some(Refusal::Map)
}

// The largest budget that a run may have.
const LARGEST: u64 = 1_000_000;

// Refusals 1 to 4.
pub fn run_refusal(
    x: &[u64; 32],
    w: &[u64; COUNT],
    mem: &[u8],
    map: &[u64],
    budget: u64,
) -> Option<Refusal>
    ensures { result ≡ run_refusal_of budget (hart x.now w.now) mem.now map.now }
{
    if let Some(lower) = step_refusal(x, w, mem, map) {
        return Some(lower);
    }
    if LARGEST < budget {
        return Some(Refusal::Budget);
    }
    None
}

// A call that was not taken.
pub fn refused(refusal: Refusal, h: Hart) -> Answer
    ensures { result ≡ record { refusal = Some refusal; hart = h; count = 0; trap = None } }
{
    Answer {
        refusal: Some(refusal),
        hart: h,
        count: 0,
        trap: None,
    }
}
