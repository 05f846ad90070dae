// A hart in a line of a file of cases: 52 numbers, which are pc, x0 to x31, and the words after pc in the order of crate `csr_words`. Among the given
// numbers they follow three others.
ghost use Rattle.std.specs.Prelude.{◌≡◌, get_or};
ghost use Rattle.csr_words.specs.Words.{◌of◌, PC};

use csr_words::{COUNT, MODE, PC};
use std::array;
use step_hart::Hart;

// How many numbers a hart is, and where the words after pc start among them.
pub const NUMBERS: usize = 52;

const WORDS: usize = 33;

// Where a hart starts among the given numbers of a line.
const FIRST: usize = 3;

// The hart that a line gives, where a number that the line does not have is 0.
pub fn given(n: &[u64]) -> Hart
    ensures { PC of result.words ≡ get_or n.now 3 0 }
{
    let number = |i: usize| n.get(FIRST + i).copied().unwrap_or(0);
    of_numbers(&array::from_fn(number))
}

// The hart of its numbers.
pub fn of_numbers(numbers: &[u64; NUMBERS]) -> Hart
    ensures { PC of result.words ≡ get_or numbers.now 0 0 }
{
    let mut x = [0u64; 32];
    x.copy_from_slice(&numbers[1..WORDS]);
    let mut words = [0u64; COUNT];
    words[MODE..].copy_from_slice(&numbers[WORDS..]);
    words[PC] = numbers[0];
    Hart { x, words }
}

pub fn numbers(hart: Hart) -> [u64; NUMBERS]
    ensures { get_or result 0 0 ≡ PC of hart.words }
{
    let Hart { x, words } = hart;
    let mut numbers = [0u64; NUMBERS];
    numbers[1..WORDS].copy_from_slice(&x);
    numbers[WORDS..].copy_from_slice(&words[MODE..]);
    numbers[0] = words[PC];
    numbers
}
