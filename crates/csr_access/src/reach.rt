// Which CSR an address names, and whether a mode may touch it: none where the address names none, or the mode may not.
ghost use Rattle.std.specs.Prelude.{◌≡◌};
ghost use Rattle.word.specs.Choice.{look};
ghost use Rattle.csr_access.specs.Reach.{addresses, reach_of};

use csr::Csr;
use isa::Mode;

fn found(permitted: bool, address: u16) -> Option<Csr>
    ensures { result ≡ look address (addresses permitted) }
{
    match address {
        0x011 if permitted => Some(Csr::Ssp),
        0x100 => Some(Csr::Sstatus),
        0x105 => Some(Csr::Stvec),
        0x10a => Some(Csr::Senvcfg),
        0x140 => Some(Csr::Sscratch),
        0x141 => Some(Csr::Sepc),
        0x142 => Some(Csr::Scause),
        0x143 => Some(Csr::Stval),
        0x180 => Some(Csr::Satp),
        0x300 => Some(Csr::Mstatus),
        0x302 => Some(Csr::Medeleg),
        0x305 => Some(Csr::Mtvec),
        0x30a => Some(Csr::Menvcfg),
        0x340 => Some(Csr::Mscratch),
        0x341 => Some(Csr::Mepc),
        0x342 => Some(Csr::Mcause),
        0x343 => Some(Csr::Mtval),
        0x747 => Some(Csr::Mseccfg),
        _ => None,
    }
}

// A mode below address bits 9:8 is illegal.
#[tactic(auto, unfolding(crate::specs::Reach::reach_of))]
pub fn reach(m: Mode, permitted: bool, address: u16) -> Option<Csr>
    ensures { result ≡ reach_of m permitted address }
{
    if u64::from(m) < u64::from(address / 256 % 4) {
        return None;
    }
    found(permitted, address)
}
