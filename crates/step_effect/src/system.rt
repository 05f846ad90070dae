// MRET, SRET, ECALL, EBREAK and illegal instructions.
ghost use Rattle.std.specs.Prelude.{◌≡◌};
ghost use Rattle.csr_access.specs.Exception.{illegal_of, breakpoint_of, ecall_of};
ghost use Rattle.step_effect.specs.System.{trap_with, mret_effect_of, sret_effect_of};

use super::{Effect, Privileged};
use csr_access::exception;
use isa::{Exception, Mode};

fn trap(e: Exception) -> Effect
    ensures { result ≡ trap_with e }
{
    Effect::Trap(e.cause, e.tval)
}

pub fn illegal(word: u32) -> Effect
    ensures { result ≡ trap_with (illegal_of word) }
{
    trap(exception::illegal(word))
}

pub fn ebreak(pc: u64) -> Effect
    ensures { result ≡ trap_with (breakpoint_of pc) }
{
    trap(exception::breakpoint(pc))
}

pub fn ecall(m: Mode) -> Effect
    ensures { result ≡ trap_with (ecall_of m) }
{
    trap(exception::call(m))
}

// Illegal below M.
pub fn mret(m: Mode, word: u32) -> Effect
    ensures { result ≡ mret_effect_of m word }
{
    match m {
        Mode::User | Mode::Supervisor => illegal(word),
        Mode::Machine => Effect::Privileged(Privileged::Mret),
    }
}

// Illegal in U.
pub fn sret(m: Mode, word: u32) -> Effect
    ensures { result ≡ sret_effect_of m word }
{
    match m {
        Mode::User => illegal(word),
        Mode::Supervisor | Mode::Machine => Effect::Privileged(Privileged::Sret),
    }
}
