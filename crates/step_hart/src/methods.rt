// Each operation on a hart's words, of a hart by value.
ghost use Rattle.std.specs.Prelude.{◌≡◌, ◌^◌, ◌≤◌, length};
ghost use Rattle.csr_words.specs.Warl.{shown_of, csr_write_of};
ghost use Rattle.csr_words.specs.Return.{mret_of, sret_of};
ghost use Rattle.csr_words.specs.Trap.{trap_of};
ghost use Rattle.step_hart.specs.Hart.{hart, start_of, legal};
ghost use Rattle.step_hart.specs.Step.{step_from, stepped_of};

use super::{Hart, legal, step};
use csr::Csr;
use csr_words::{COUNT, MODE, MSTATUS, returns, setting, trap, warl};
use step_meaning::Source;

// What a step hands back: the hart after it, and the trap's cause if it trapped.
#[derive(Clone, Copy)]
pub struct Stepped {
    pub hart: Hart,
    pub trap: Option<u64>,
}

// A hart to start from: in M at address 0, and nothing set; UXL and SXL are 2.
pub fn start() -> Hart
    ensures { result ≡ start_of }
{
    let mut w = [0; COUNT];
    w[MODE] = 3;
    w[MSTATUS] = 0xa_0000_0000;
    Hart {
        x: [0; 32],
        words: w,
    }
}

impl Hart {
    // Whether refusal 1 lets the hart pass.
    pub fn legal(self) -> bool
        ensures { result ≡ legal self }
    {
        legal::of_words(&self.x, &self.words)
    }

    // What a read of CSR n shows.
    pub fn csr_read(self, n: Csr) -> u64
        ensures { result ≡ shown_of n self.words }
    {
        warl::shown(&self.words, n)
    }

    // The hart after a write of v to CSR n.
    pub fn csr_write(mut self, n: Csr, v: u64) -> Hart
        ensures { result ≡ hart self.x (csr_write_of n v self.words) }
    {
        warl::write(&mut self.words, n, v);
        self
    }

    // The hart after a trap of the instruction at pc.
    pub fn trap(mut self, cause: u64, tval: u64) -> Hart
        ensures { result ≡ hart self.x (trap_of self.words cause tval) }
    {
        trap::enter(&mut self.words, cause, tval);
        self
    }

    // MRET.
    pub fn mret(mut self) -> Hart
        ensures { result ≡ hart self.x (mret_of self.words) }
    {
        returns::mret(&mut self.words);
        self
    }

    // SRET.
    pub fn sret(mut self) -> Hart
        ensures { result ≡ hart self.x (sret_of self.words) }
    {
        returns::sret(&mut self.words);
        self
    }

    // A step that fetches, or that takes a given word.
    pub fn step(mut self, source: Source, mem: &mut [u8], map: &[u64]) -> Stepped
        requires { length mem.old ≤ 2 ^ 20 }
        ensures answer { result ≡ stepped_of (step_from source self mem.old map.now) }
        ensures memory { mem.new ≡ (step_from source self mem.old map.now).memory }
    {
        let s = setting::setting(&self.words);
        let d = step::one(&mut self.x, &mut self.words, source, s, mem, map);
        Stepped {
            hart: self,
            trap: d.trap,
        }
    }
}
