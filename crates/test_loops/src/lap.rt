// A lap: a program in memory, run until it traps, a million steps at a time, and how it ended.
ghost use Rattle.std.specs.Prelude.{◌≡◌, ◌≤◌, length, get_or, replicate};

use csr_words::COUNT;
use step_hart::Hart;

// How many steps a run may take, and how many runs a lap has at most.
const BUDGET: u64 = 1_000_000;

const MOST_RUNS: u64 = 8;

// How many bytes memory has.
const MEMORY: usize = 8192;

// How many numbers are compared of how a lap ended, and where those after the hart stand: memory is the last of them.
pub const NUMBERS: usize = 60;

pub const RUNS: usize = 52;

pub const STEPS: usize = 53;

const TRAPPED: usize = 54;

const CAUSE: usize = 55;

const SHOWN: usize = 56;

// A program, which stands at the start of memory, and how it is to end. Four doublewords of memory from `shown` on are compared.
#[derive(Clone, Copy)]
pub struct Lap {
    pub name: &'static str,
    pub code: &'static [u32],
    pub map: &'static [u64],
    pub start: Hart,
    pub shown: usize,
    pub wanted: End,
}

// How a lap ended: the hart, the runs, the steps of all of them together, the cause of the last one's trap, and what is shown of memory.
#[derive(Clone, Copy)]
pub struct End {
    pub hart: Hart,
    pub runs: u64,
    pub steps: u64,
    pub trap: Option<u64>,
    pub memory: [u64; 4],
}

// A hart of zeros, to begin a wanted one from.
pub fn zeros() -> Hart
    ensures { result ≡ record { x = replicate 32 0; words = replicate 20 0 } }
{
    Hart {
        x: [0; 32],
        words: [0; COUNT],
    }
}

// Puts the words of a program at the start of memory, as far as there is room for them.
fn write(mem: &mut [u8], code: &[u32])
    ensures { length mem.new ≡ length mem.old }
{
    for (four, word) in mem.chunks_exact_mut(4).zip(code) {
        four.copy_from_slice(&word.to_le_bytes());
    }
}

// Four doublewords of memory; all ones where there is none.
fn doubles(mem: &[u8], from: usize) -> [u64; 4] {
    let mut doubles = [u64::MAX; 4];
    let (eights, _) = mem.get(from..).unwrap_or(&[]).as_chunks();
    for (double, eight) in doubles.iter_mut().zip(eights) {
        *double = u64::from_le_bytes(*eight);
    }
    doubles
}

impl Lap {
    // Runs until one traps.
    fn chained(&self, mem: &mut [u8]) -> End
        ensures len { length mem.new ≡ length mem.old }
        ensures runs { result.runs ≤ 8 }
    {
        let mut hart = self.start;
        let mut steps = 0u64;
        for runs in 1..=MOST_RUNS {
            let a = run_machine::run(hart, mem, self.map, BUDGET);
            hart = a.hart;
            steps = steps.wrapping_add(a.count);
            if a.trap.is_some() {
                return End {
                    hart,
                    runs,
                    steps,
                    trap: a.trap,
                    memory: doubles(mem, self.shown),
                };
            }
        }
        End {
            hart,
            runs: MOST_RUNS,
            steps,
            trap: None,
            memory: doubles(mem, self.shown),
        }
    }

    pub fn run(&self) -> End
        ensures { result.runs ≤ 8 }
    {
        let mut mem = [0u8; MEMORY];
        write(&mut mem, self.code);
        self.chained(&mut mem)
    }
}

// The numbers of a hart: x0 to x31, and the words of crate `csr_words`.
fn hart_numbers(hart: Hart) -> [u64; RUNS] {
    let Hart { x, words } = hart;
    let mut numbers = [0u64; RUNS];
    numbers[..32].copy_from_slice(&x);
    numbers[32..].copy_from_slice(&words);
    numbers
}

impl End {
    // The numbers of the hart and of memory, each at its place.
    fn places(self) -> [u64; NUMBERS] {
        let hart = hart_numbers(self.hart);
        let memory = self.memory;
        let mut numbers = [0u64; NUMBERS];
        numbers[..RUNS].copy_from_slice(&hart);
        numbers[SHOWN..].copy_from_slice(&memory);
        numbers
    }

    // What is compared.
    pub fn numbers(self) -> [u64; NUMBERS]
        ensures { get_or result 53 0 ≡ self.steps }
    {
        let mut numbers = self.places();
        numbers[RUNS] = self.runs;
        numbers[STEPS] = self.steps;
        numbers[TRAPPED] = u64::from(self.trap.is_some());
        numbers[CAUSE] = self.trap.unwrap_or(0);
        numbers
    }
}
