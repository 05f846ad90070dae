// What cause and tval hold of an exception that an instruction makes by itself.
ghost use Rattle.std.specs.Prelude.{◌≡◌};
ghost use Rattle.csr_access.specs.Exception.{illegal_of, breakpoint_of, ecall_of};

use isa::{Exception, Mode};

// An illegal instruction.
pub fn illegal(word: u32) -> Exception
    ensures { result ≡ illegal_of word }
{
    Exception {
        cause: 2,
        tval: word as u64,
    }
}

// EBREAK.
pub fn breakpoint(pc: u64) -> Exception
    ensures { result ≡ breakpoint_of pc }
{
    Exception { cause: 3, tval: pc }
}

// ECALL out of a mode.
pub fn call(m: Mode) -> Exception
    ensures { result ≡ ecall_of m }
{
    match m {
        Mode::User => Exception { cause: 8, tval: 0 },
        Mode::Supervisor => Exception { cause: 9, tval: 0 },
        Mode::Machine => Exception { cause: 11, tval: 0 },
    }
}
