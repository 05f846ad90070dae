// The CSR instructions: which CSR, with which operand, and whether it is written.
ghost use Rattle.std.specs.Prelude.{◌≡◌};
ghost use Rattle.step_effect.specs.Csrs.{writes_of, merged_of, field_of, operand_of, csr_effect_of};

use super::{Effect, Privileged, register, system};
use csr_access::reach;
use csr_setting::Setting;
use isa::{CsrOperation, CsrSource};
use word::logic;

// CSRRS and CSRRC with x0 or 0 do not write.
pub fn writes(o: CsrOperation, field: u8) -> bool
    ensures { result ≡ writes_of o field }
{
    match o {
        CsrOperation::Write => true,
        CsrOperation::Set | CsrOperation::Clear => field != 0,
    }
}

// The register's number, or the number itself.
fn field(source: CsrSource) -> u8
    ensures { result ≡ field_of source }
{
    match source {
        CsrSource::Register(n) | CsrSource::Immediate(n) => n,
    }
}

fn operand(source: CsrSource, x: &[u64; 32]) -> u64
    ensures { result ≡ operand_of source x.now }
{
    match source {
        CsrSource::Register(n) => register::reg(x, n),
        CsrSource::Immediate(n) => u64::from(n),
    }
}

// What is written to a CSR that shows `old`.
pub fn merged(o: CsrOperation, old: u64, v: u64) -> u64
    ensures { result ≡ merged_of o old v }
{
    match o {
        CsrOperation::Write => v,
        CsrOperation::Set => logic::or(old, v),
        CsrOperation::Clear => logic::and(old, 0xffff_ffff_ffff_ffff - v),
    }
}

#[tactic(auto, unfolding(crate::specs::Csrs::csr_effect_of, crate::specs::Csrs::csr_reached_of))]
pub fn csr(
    o: CsrOperation,
    source: CsrSource,
    rd: u8,
    address: u16,
    word: u32,
    x: &[u64; 32],
    next: u64,
    s: Setting,
) -> Effect
    ensures { result ≡ csr_effect_of o source rd address word x.now next s.control.mode s.permitted }
{
    match reach::reach(s.control.mode, s.permitted, address) {
        Some(n) => Effect::Privileged(Privileged::Csr(
            o,
            n,
            writes(o, field(source)),
            operand(source, x),
            rd,
            next,
        )),
        None => system::illegal(word),
    }
}
