// What is printed of a lap: how many steps in how many runs, and 'as expected', or each number that is not.
ghost use Rattle.std.specs.Prelude.{◌≡◌, true};

use test_lines::names::{REGISTERS, WORDS};
use test_lines::report::Differences;
use test_loops::lap::{NUMBERS, RUNS, STEPS};

// The names of the numbers after the hart's.
const AFTER_HART: [&str; 8] = [
    "runs",
    "steps",
    "trapped",
    "cause",
    "memory",
    "memory+8",
    "memory+16",
    "memory+24",
];

// By name, each number that is not the wanted one.
fn differing(rt: &impl Print, names: &[&[&str]], wanted: &[u64], got: &[u64]) {
    let differences = Differences { names, wanted, got };
    let _ = println!(rt; ", but got{differences}");
}

// Prints the line of a lap, and says whether every number is as wanted.
pub fn told(rt: &impl Print, lap: &str, wanted: &[u64; NUMBERS], got: &[u64; NUMBERS]) -> bool
    ensures { (result ≡ true → wanted.now ≡ got.now) × (wanted.now ≡ got.now → result ≡ true) }
{
    let steps = got[STEPS];
    let runs = got[RUNS];
    let _ = print!(rt; "{lap}: {steps} steps in {runs} runs");
    let right = wanted == got;
    if right {
        let _ = println!(rt; ", as expected");
    } else {
        let names = [&REGISTERS[..], &["pc"], &WORDS, &AFTER_HART];
        differing(rt, &names, wanted, got);
    }
    right
}
