// Calls: 500,000 turns of eight instructions, in U under Sv39, with landing pads and a shadow stack. A turn calls a function
// through x12; it starts with a landing pad, pushes its return address, counts, checks it and returns.
ghost use Rattle.std.specs.Prelude.{◌≡◌, length};
ghost use Rattle.csr_words.specs.Words.{◌of◌, PC};

use super::lap;
use super::lap::{End, Lap};
use csr_words::{MCAUSE, MENVCFG, MEPC, MODE, MSTATUS, PC, SATP, SENVCFG, SSP};

// The program, at virtual address 0x1000; x10 counts the turns down.
const CODE: [u32; 9] = [
    0x000600e7, // jalr x1, 0(x12)
    0xfff50513, // addi x10, x10, -1
    0xfe051ce3, // bne x10, x0, .-8
    0x00000073, // ecall
    0x00000017, // auipc x0, 0: the landing pad, with label 0
    0xce104073, // push of x1
    0x00128293, // addi x5, x5, 1
    0xcdc0c073, // pop-check of x1
    0x00008067, // jalr x0, 0(x1)
];

// Page 1 is the code (V, X, U and A) at 0x80000000, page 5 the shadow stack (V, W, U, A and D) at 0x80001000.
const MAP: [u64; 4] = [1, 0x8_0000 * 1024 + 0x59, 5, 0x8_0001 * 1024 + 0xd5];

pub fn lap() -> Lap
    ensures pc { PC of result.start.words ≡ 0x1000 }
    ensures code { length result.code.now ≡ 9 }
    ensures map { length result.map.now ≡ 4 }
{
    let mut start = lap::zeros();
    start.x[10] = 500_000;
    start.x[12] = 0x1010;
    start.words[PC] = 0x1000;
    start.words[SSP] = 0x5800;
    start.words[SENVCFG] = 0xc;
    start.words[SATP] = 0x8000_0000_0000_0000;
    start.words[MSTATUS] = 0xa_0000_0000;
    start.words[MENVCFG] = 0x8;
    Lap {
        name: "calls with landing pads and a shadow stack",
        code: &CODE,
        map: &MAP,
        start,
        shown: 0x17f0,
        wanted: wanted(),
    }
}

// x5 has counted 500,000 turns, x1 is the return address of each, and so is what was pushed last, at 0x57F8, the second of the
// four doublewords. ssp is back, and no pad is expected. Four runs of 1,000,000 steps end with the last bne; a fifth takes
// the ecall, from U (cause 8) to M.
fn wanted() -> End {
    let mut hart = lap::zeros();
    hart.x[1] = 0x1004;
    hart.x[5] = 500_000;
    hart.x[12] = 0x1010;
    hart.words[MODE] = 3;
    hart.words[SSP] = 0x5800;
    hart.words[SENVCFG] = 0xc;
    hart.words[SATP] = 0x8000_0000_0000_0000;
    hart.words[MSTATUS] = 0xa_0000_0000;
    hart.words[MENVCFG] = 0x8;
    hart.words[MEPC] = 0x100c;
    hart.words[MCAUSE] = 8;
    End {
        hart,
        runs: 5,
        steps: 4_000_001,
        trap: Some(8),
        memory: [0, 0x1004, 0, 0],
    }
}
