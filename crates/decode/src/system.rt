// The SYSTEM opcode: ECALL, EBREAK, SRET and MRET are whole words, the others go by funct3.
ghost use Rattle.std.specs.Prelude.{◌≡◌};
ghost use Rattle.decode.specs.System.{decode_csr_of, system_of};

use super::cfi::zimop;
use isa::{CsrOperation, CsrSource, Instruction};
use word::field::Fields;

#[tactic(auto, unfolding(crate::specs::System::decode_csr_of))]
fn csr(w: u32, f: Fields) -> Instruction
    ensures { result ≡ decode_csr_of w f }
{
    let register = CsrSource::Register(f.rs1);
    let immediate = CsrSource::Immediate(f.rs1);
    let (operation, source) = match f.funct3 {
        0b001 => (CsrOperation::Write, register),
        0b010 => (CsrOperation::Set, register),
        0b011 => (CsrOperation::Clear, register),
        0b101 => (CsrOperation::Write, immediate),
        0b110 => (CsrOperation::Set, immediate),
        0b111 => (CsrOperation::Clear, immediate),
        0b100 => return zimop(w, f),
        _ => return Instruction::Illegal,
    };
    Instruction::Csr(operation, source, f.rd, (w / 1048576 % 4096) as u16)
}

#[tactic(auto, unfolding(crate::specs::System::system_of))]
pub fn system(w: u32, f: Fields) -> Instruction
    ensures { result ≡ system_of w f }
{
    match w {
        0x00000073 => Instruction::Ecall,
        0x00100073 => Instruction::Ebreak,
        0x10200073 => Instruction::Sret,
        0x30200073 => Instruction::Mret,
        _ => csr(w, f),
    }
}
