// Loads and stores: 400,000 turns of ten instructions, in M.
ghost use Rattle.std.specs.Prelude.{◌≡◌, length};
ghost use Rattle.csr_words.specs.Words.{◌of◌, PC};

use super::lap;
use super::lap::{End, Lap};
use csr_words::{MCAUSE, MEPC, MODE, MSTATUS, PC};
use step_hart::methods;

// The program, at 0x80000000; x10 counts the turns down, and x11 points at 0x80001000.
const CODE: [u32; 11] = [
    0x0005b283, // ld x5, 0(x11)
    0x00128293, // addi x5, x5, 1
    0x0055b023, // sd x5, 0(x11)
    0x0085a303, // lw x6, 8(x11)
    0xfff30313, // addi x6, x6, -1
    0x0065a423, // sw x6, 8(x11)
    0x0005c383, // lbu x7, 0(x11)
    0x00758823, // sb x7, 16(x11)
    0xfff50513, // addi x10, x10, -1
    0xfc051ee3, // bne x10, x0, .-36
    0x00000073, // ecall
];

pub fn lap() -> Lap
    ensures pc { PC of result.start.words ≡ 0x80000000 }
    ensures code { length result.code.now ≡ 11 }
{
    let mut start = methods::start();
    start.x[10] = 400_000;
    start.x[11] = 0x8000_1000;
    start.words[PC] = 0x8000_0000;
    Lap {
        name: "loads and stores",
        code: &CODE,
        map: &[],
        start,
        shown: 0x1000,
        wanted: wanted(),
    }
}

// The doubleword at 0x80001000 counts n = 400,000 turns up, and the word at 0x80001008 counts them down from 0: 2^32 - n. x5
// and x6 are what was stored last, where x6 is the whole -n. x7 and the byte at 0x80001010 are the low byte of 400,000 =
// 0x61A80. Four runs of 1,000,000 steps end with the last bne; a fifth takes the ecall.
fn wanted() -> End {
    let mut hart = lap::zeros();
    hart.x[5] = 400_000;
    hart.x[6] = 0xffff_ffff_ffff_ffff - 400_000 + 1;
    hart.x[7] = 0x80;
    hart.x[11] = 0x8000_1000;
    hart.words[MODE] = 3;
    hart.words[MSTATUS] = 0xa_0000_1800;
    hart.words[MEPC] = 0x8000_0028;
    hart.words[MCAUSE] = 11;
    End {
        hart,
        runs: 5,
        steps: 4_000_001,
        trap: Some(11),
        memory: [400_000, 0x1_0000_0000 - 400_000, 0x80, 0],
    }
}
