// The rules of single CSRs, on numbers: what a write leaves and a read shows, and which words a CSR can hold. mstatus' own
// rules stand in crate `csr_status`; who may touch a CSR, and what it switches on, in crate `csr_access`.
#![tactic(auto)]

pub mod legal;
mod row;
pub mod warl;

// The CSRs of docs/HART.md, 5.1, in its order.
#[derive(Clone, Copy)]
pub enum Csr {
    Ssp,
    Sstatus,
    Stvec,
    Senvcfg,
    Sscratch,
    Sepc,
    Scause,
    Stval,
    Satp,
    Mstatus,
    Medeleg,
    Mtvec,
    Menvcfg,
    Mscratch,
    Mepc,
    Mcause,
    Mtval,
    Mseccfg,
}
