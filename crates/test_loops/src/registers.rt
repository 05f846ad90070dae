// Registers only: 500,000 turns of eight instructions, in M.
ghost use Rattle.std.specs.Prelude.{◌≡◌, length};
ghost use Rattle.csr_words.specs.Words.{◌of◌, PC};

use super::lap;
use super::lap::{End, Lap};
use csr_words::{MCAUSE, MEPC, MODE, MSTATUS, PC};
use step_hart::methods;

// The program, at 0x80000000; x10 counts the turns down.
const CODE: [u32; 9] = [
    0x00328293, // addi x5, x5, 3
    0x00530333, // add x6, x6, x5
    0x006383bb, // addw x7, x7, x6
    0x40540433, // sub x8, x8, x5
    0x00129593, // slli x11, x5, 1
    0x00b2b633, // sltu x12, x5, x11
    0xfff50513, // addi x10, x10, -1
    0xfe0512e3, // bne x10, x0, .-28
    0x00000073, // ecall
];

pub fn lap() -> Lap
    ensures pc { PC of result.start.words ≡ 0x80000000 }
    ensures code { length result.code.now ≡ 9 }
{
    let mut start = methods::start();
    start.x[10] = 500_000;
    start.words[PC] = 0x8000_0000;
    Lap {
        name: "registers only",
        code: &CODE,
        map: &[],
        start,
        shown: 0x1000,
        wanted: wanted(),
    }
}

// After n = 500,000 turns x5 is 3 n, x6 the sum of 3 k for k from 1 to n, which is 3 n (n + 1) / 2, and x8 that sum taken from 0.
// x7 is the sum of all that x6 was, n (n + 1) (n + 2) / 2 = 62,500,375,000,500,000 = 0xDE0BC28A3BC720, of which the low 32 bits
// stay, with the sign extended. x11 is twice x5, and x12 says that x5 is less than it. Four runs of 1,000,000 steps end with
// the last bne; a fifth takes the ecall, to mtvec, which is 0, and saves its pc, cause 11, tval 0 and M in MPP.
fn wanted() -> End {
    let mut hart = lap::zeros();
    hart.x[5] = 1_500_000;
    hart.x[6] = 375_000_750_000;
    hart.x[7] = 0xffff_ffff_8a3b_c720;
    hart.x[8] = 0xffff_ffff_ffff_ffff - 375_000_750_000 + 1;
    hart.x[11] = 3_000_000;
    hart.x[12] = 1;
    hart.words[MODE] = 3;
    hart.words[MSTATUS] = 0xa_0000_1800;
    hart.words[MEPC] = 0x8000_0020;
    hart.words[MCAUSE] = 11;
    End {
        hart,
        runs: 5,
        steps: 4_000_001,
        trap: Some(11),
        memory: [0; 4],
    }
}
