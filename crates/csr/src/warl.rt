// What a write leaves in a CSR, and what a read shows.
ghost use Rattle.std.specs.Prelude.{◌≡◌};
ghost use Rattle.word.specs.Row.{row_write_of, row_read_of};
ghost use Rattle.csr.specs.Row.{row_of};

use super::{Csr, row};
use csr_status::warl as mstatus;

// The stored word after a write of v over `old`; sse is menvcfg.SSE. What sstatus stores is mstatus.
pub fn write(n: Csr, sse: bool, old: u64, v: u64) -> u64
    ensures { result ≡ row_write_of (row_of n sse) old v }
{
    match n {
        Csr::Ssp => row::multiple::<8>(v),
        Csr::Stvec | Csr::Sepc | Csr::Mtvec | Csr::Mepc => row::multiple::<4>(v),
        Csr::Sscratch | Csr::Scause | Csr::Stval | Csr::Mscratch | Csr::Mcause | Csr::Mtval => v,
        Csr::Sstatus => mstatus::write_view(old, v),
        Csr::Mstatus => mstatus::write(old, v),
        Csr::Medeleg => row::medeleg(v),
        Csr::Senvcfg => row::envcfg(sse, old, v),
        Csr::Menvcfg => row::envcfg(true, old, v),
        Csr::Mseccfg => row::mseccfg(old, v),
        Csr::Satp => row::satp(old, v),
    }
}

// What a read shows of the stored word m.
pub fn read(n: Csr, sse: bool, m: u64) -> u64
    ensures { result ≡ row_read_of (row_of n sse) m }
{
    match n {
        Csr::Ssp => row::multiple::<8>(m),
        Csr::Stvec | Csr::Sepc | Csr::Mtvec | Csr::Mepc => row::multiple::<4>(m),
        Csr::Sscratch | Csr::Scause | Csr::Stval | Csr::Mscratch | Csr::Mcause | Csr::Mtval => m,
        Csr::Sstatus => mstatus::view(m),
        Csr::Mstatus => mstatus::shown(m),
        Csr::Medeleg => row::medeleg(m),
        Csr::Senvcfg => row::envcfg_shown(sse, m),
        Csr::Menvcfg => row::envcfg_shown(true, m),
        Csr::Mseccfg => row::mseccfg_shown(m),
        Csr::Satp => row::satp_shown(m),
    }
}
