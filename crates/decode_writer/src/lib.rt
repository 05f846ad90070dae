// The writer of instruction words: from a decoded instruction its 32-bit word, or None, refusal 5, where no word reads as it.
//
// The word is packed from the instruction's numbers without a test and then read: it is the answer exactly if it reads as
// what was to be written. So nothing here says which numbers are in reach: the reader does.
#![tactic(auto)]

ghost use Rattle.decode_writer.specs.Promise.{Answers, AnswersNumbers};

use decode::decode;
use decode_numbers::{Eight, Family, of_instruction};
use isa::Instruction;

// A word of each format from its parts.
mod format;
// The word of a family's numbers.
mod pack;

// The word of eight numbers, whatever they are. Family 0 is no legal instruction, though words read as it.
#[tactic(auto, using(crate::proofs::Answer::answered, crate::proofs::Answer::no_word))]
pub fn write_numbers(n: Eight) -> Option<u32>
    ensures { AnswersNumbers n result }
{
    if n.family == u64::from(Family::Illegal) {
        return None;
    }
    let w = pack::pack(n);
    let read = of_instruction(decode(w));
    if read == n { Some(w) } else { None }
}

// The word of an instruction.
#[tactic(auto, using(crate::proofs::Promised::promised))]
pub fn write(i: Instruction) -> Option<u32>
    ensures { Answers i result }
{
    write_numbers(of_instruction(i))
}
