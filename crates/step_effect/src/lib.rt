// What an instruction changes: a small value, the effect, which the hart applies; and what each family of instructions but loads, stores and the
// shadow stack's (crate `step_transfer`) does, from its operands' values. Nothing here knows a hart, and nothing here changes anything but
// `register::put`, which writes a lent array.
#![tactic(auto)]

use address_place::Physical;
use csr::Csr;
use isa::{CsrOperation, Width};

// What OP, OP-IMM and their word forms compute, and when a branch is taken.
pub mod compute;
// The registers by number.
pub mod register;
// JAL, JALR and branches.
pub mod jump;
// The CSR instructions.
pub mod csrs;
// MRET, SRET, ECALL, EBREAK and illegal instructions.
pub mod system;

// What an instruction changes. `next` is pc after it.
//
// A cause is a u8, here as in an `Exception`: as a u64 it would put a fault's tval at another offset than a place's one number, LLVM would
// join the stores of two arms into one through a chosen pointer, and the enum would live in memory and not in registers.
#[derive(Clone, Copy)]
pub enum Effect {
    // rd, value, next
    Write(u8, u64, u64),
    // rd, link, next, whether a landing pad is expected: JALR
    Jump(u8, u64, u64, bool),
    // next: a landing pad that was expected
    Pad(u64),
    // place, width, value, next
    Store(Physical, Width, u64, u64),
    // place, value, ssp after it, next
    Push(Physical, u64, u64, u64),
    // ssp after it, next
    Pop(u64, u64),
    // rd, its value, place, width, value to store, next
    Swap(u8, u64, Physical, Width, u64, u64),
    Privileged(Privileged),
    // cause, tval
    Trap(u8, u64),
}

// What changes more of a hart than registers, pc, ELP and ssp.
#[derive(Clone, Copy)]
pub enum Privileged {
    // operation, CSR, whether it writes, operand, rd, next
    Csr(CsrOperation, Csr, bool, u64, u8, u64),
    Mret,
    Sret,
}
