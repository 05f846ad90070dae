// What menvcfg, senvcfg and mseccfg switch on, by the mode.
ghost use Rattle.std.specs.Prelude.{◌≡◌};
ghost use Rattle.csr_access.specs.Enable.{sse_of, by_sse_of, by_mode_of, shadow_of, permits_of, pad_of};

use isa::Mode;

// SSE of menvcfg, or the stored SSE of senvcfg.
pub fn sse(envcfg: u64) -> bool
    ensures { result ≡ sse_of envcfg }
{
    envcfg / 8 % 2 == 1
}

// While menvcfg.SSE is 0, senvcfg.SSE acts as 0.
fn by_sse(m: Mode, machine: bool, msse: bool, ssse: bool) -> bool
    ensures { result ≡ by_sse_of m machine msse ssse }
{
    match m {
        Mode::User => msse && ssse,
        Mode::Supervisor => msse,
        Mode::Machine => machine,
    }
}

// The active shadow enable.
pub fn shadow(m: Mode, menvcfg: u64, senvcfg: u64) -> bool
    ensures { result ≡ shadow_of m menvcfg senvcfg }
{
    by_sse(m, false, sse(menvcfg), sse(senvcfg))
}

// Whether ssp may be touched as a CSR, and whether the swap is legal.
pub fn permits(m: Mode, menvcfg: u64, senvcfg: u64) -> bool
    ensures { result ≡ permits_of m menvcfg senvcfg }
{
    by_sse(m, true, sse(menvcfg), sse(senvcfg))
}

fn by_mode(m: Mode, machine: bool, supervisor: bool, user: bool) -> bool
    ensures { result ≡ by_mode_of m machine supervisor user }
{
    match m {
        Mode::User => user,
        Mode::Supervisor => supervisor,
        Mode::Machine => machine,
    }
}

// The pad enable.
pub fn pad(m: Mode, menvcfg: u64, senvcfg: u64, mseccfg: u64) -> bool
    ensures { result ≡ pad_of m menvcfg senvcfg mseccfg }
{
    by_mode(
        m,
        mseccfg / 0x400 % 2 == 1,
        menvcfg / 4 % 2 == 1,
        senvcfg / 4 % 2 == 1,
    )
}
