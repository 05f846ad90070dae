// Step 1, the effective mode of an access, and what goes by it: which PMM counts, whether Sv39 is in force, and where neither
// concerns an access; and which accesses are not masked at all.
ghost use Rattle.std.specs.Prelude.{◌≡◌};
ghost use Rattle.address.specs.Control.{under_mprv_of, effective_mode_of, pmm_of, paged_of, lifted_of, unmasked_of, regime_of, bare_of, flat_of};

use address_page::Regime;
use isa::{Kind, Mode};

// What a hart's mode and CSRs say about accesses: sv39 is satp.MODE 8, sse is menvcfg.SSE, and the last three
// are the PMMs of senvcfg, menvcfg and mseccfg.
#[derive(Clone, Copy)]
pub struct Control {
    pub mode: Mode,
    pub mprv: bool,
    pub mpp: Mode,
    pub sv39: bool,
    pub sum: bool,
    pub mxr: bool,
    pub sse: bool,
    pub upmm: u8,
    pub spmm: u8,
    pub mpmm: u8,
}

impl Control {
    // MPRV counts in M alone.
    fn under_mprv(self) -> Mode
        ensures { result ≡ under_mprv_of self.mode self.mprv self.mpp }
    {
        match self.mode {
            Mode::Machine if self.mprv => self.mpp,
            mode => mode,
        }
    }

    // The effective mode.
    #[tactic(auto, unfolding(crate::specs::Control::effective_mode_of))]
    pub fn effective(self, k: Kind) -> Mode
        ensures { result ≡ effective_mode_of self k }
    {
        match k {
            Kind::Load | Kind::Store | Kind::Swap => self.under_mprv(),
            Kind::Fetch | Kind::Push | Kind::Pop => self.mode,
        }
    }

    // The PMM that counts in an effective mode.
    pub fn pmm(self, m: Mode) -> u8
        ensures { result ≡ pmm_of m self.upmm self.spmm self.mpmm }
    {
        match m {
            Mode::User => self.upmm,
            Mode::Supervisor => self.spmm,
            Mode::Machine => self.mpmm,
        }
    }

    // Whether Sv39 is in force in an effective mode.
    pub fn paged(self, m: Mode) -> bool
        ensures { result ≡ paged_of m self.sv39 }
    {
        match m {
            Mode::User | Mode::Supervisor => self.sv39,
            Mode::Machine => false,
        }
    }

    // MPRV and MXR together lift masking, in M alone.
    fn lifted(self) -> bool
        ensures { result ≡ lifted_of self.mode self.mprv self.mxr }
    {
        match self.mode {
            Mode::User | Mode::Supervisor => false,
            Mode::Machine => self.mprv && self.mxr,
        }
    }

    // Whether step 2 leaves an access of this kind as it is.
    pub fn unmasked(self, k: Kind) -> bool
        ensures { result ≡ unmasked_of self k }
    {
        match k {
            Kind::Fetch => true,
            Kind::Load | Kind::Store | Kind::Swap => self.lifted(),
            Kind::Push | Kind::Pop => false,
        }
    }

    // What a leaf is judged by in an effective mode.
    pub fn regime(self, m: Mode) -> Regime
        ensures { result ≡ regime_of self m }
    {
        Regime {
            mode: m,
            sum: self.sum,
            mxr: self.mxr,
            sse: self.sse,
        }
    }

    // Fetches are not translated: M, or Bare.
    #[tactic(auto, unfolding(crate::specs::Control::bare_of, crate::specs::Control::effective_mode_of))]
    pub fn bare(self) -> bool
        ensures { result ≡ bare_of self }
    {
        !self.paged(self.mode)
    }

    // Loads and stores are neither translated nor masked.
    pub fn flat(self) -> bool
        ensures { result ≡ flat_of self }
    {
        let m = self.effective(Kind::Load);
        !self.paged(m) && (self.pmm(m) == 0 || self.unmasked(Kind::Load))
    }
}
