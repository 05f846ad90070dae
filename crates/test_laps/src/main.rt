// Runs three loops of 4,000,000 instructions each, in chained runs of at most 1,000,000 steps, and prints of each whether it
// ended with the numbers that its file works out.
#![tactic(auto)]

use test_loops::{calls, doubles, registers};

// What is printed.
mod told;

fn main(rt: HostRuntime) {
    for lap in [registers::lap(), doubles::lap(), calls::lap()] {
        let wanted = lap.wanted.numbers();
        let got = lap.run().numbers();
        told::told(&rt, lap.name, &wanted, &got);
    }
}
