// The boundary for C and Rust: an instruction as eight numbers, read from a word and written to one (include/sporhulma.h).
//
// A static library of its own: the compiler puts `decode` into the run's loop only while that is its one caller.
#![tactic(auto)]

ghost use Rattle.std.specs.Prelude.{◌≡◌};
ghost use Rattle.scribe.specs.Boundary.{read_result, read_left, Wrote};

use decode::decode;
use decode_numbers::{Eight, Family, of_instruction};
use decode_writer::write_numbers;

// 0 and the instruction's numbers, or refusal 5 and eight zeros.
#[unsafe(no_mangle)]
pub extern "C" fn sporhulma_read(word: u32, instruction: &mut [u64; 8]) -> u64
    ensures result { result ≡ read_result word }
    ensures numbers { instruction.new ≡ read_left word }
{
    let n = of_instruction(decode(word));
    *instruction = n.into();
    if n.family == u64::from(Family::Illegal) {
        5
    } else {
        0
    }
}

// 0 and the word, or refusal 5 and the word as it was.
#[unsafe(no_mangle)]
pub extern "C" fn sporhulma_write(instruction: &[u64; 8], word: &mut u32) -> u64
    ensures { Wrote instruction.now word.old word.new result }
{
    let Some(w) = write_numbers(Eight::from(*instruction)) else {
        return 5;
    };
    *word = w;
    0
}
