// The hart's words beside the registers: one array, whose words have names, and what needs no more of the hart than them: what a CSR shows and takes,
// what the mode and CSRs say about an instruction, trap entry, the returns, and refusal 1. The order is that of include/sporhulma.h.
#![tactic(auto)]

ghost use Rattle.std.specs.Prelude.{◌≡◌, ◌<◌};
ghost use Rattle.csr_words.specs.Words.{COUNT, csr_slot_of};

use csr::Csr;

pub mod legal;
pub mod returns;
pub mod setting;
pub mod trap;
pub mod warl;

pub const PC: usize = 0;

pub const MODE: usize = 1;

pub const ELP: usize = 2;

pub const SSP: usize = 3;

pub const STVEC: usize = 4;

pub const SENVCFG: usize = 5;

pub const SSCRATCH: usize = 6;

pub const SEPC: usize = 7;

pub const SCAUSE: usize = 8;

pub const STVAL: usize = 9;

pub const SATP: usize = 10;

pub const MSTATUS: usize = 11;

pub const MEDELEG: usize = 12;

pub const MTVEC: usize = 13;

pub const MENVCFG: usize = 14;

pub const MSCRATCH: usize = 15;

pub const MEPC: usize = 16;

pub const MCAUSE: usize = 17;

pub const MTVAL: usize = 18;

pub const MSECCFG: usize = 19;

// How many there are.
pub const COUNT: usize = 20;

// Where the word of a CSR stands: sstatus is a view of mstatus.
pub fn slot(n: Csr) -> usize
    ensures { (result ≡ csr_slot_of n) × (result < COUNT) }
{
    match n {
        Csr::Ssp => SSP,
        Csr::Stvec => STVEC,
        Csr::Senvcfg => SENVCFG,
        Csr::Sscratch => SSCRATCH,
        Csr::Sepc => SEPC,
        Csr::Scause => SCAUSE,
        Csr::Stval => STVAL,
        Csr::Satp => SATP,
        Csr::Sstatus | Csr::Mstatus => MSTATUS,
        Csr::Medeleg => MEDELEG,
        Csr::Mtvec => MTVEC,
        Csr::Menvcfg => MENVCFG,
        Csr::Mscratch => MSCRATCH,
        Csr::Mepc => MEPC,
        Csr::Mcause => MCAUSE,
        Csr::Mtval => MTVAL,
        Csr::Mseccfg => MSECCFG,
    }
}
