// The decoder's verdict as a number, for who compares decoders word by word. C calls it through `family_c`.
#![tactic(auto)]

ghost use Rattle.std.specs.Prelude.{◌≡◌};
ghost use Rattle.decode.specs.Decode.{decode_of};
ghost use Rattle.family.specs.Family.{family_of};

use decode::decode;
use decode_numbers::of_instruction;

// The family of the instruction that a word names, or 0.
#[tactic(auto, using(crate::proofs::Families::one_family))]
pub fn sporhulma_family(word: u32) -> u64
    ensures { result ≡ family_of (decode_of word) }
{
    of_instruction(decode(word)).family
}
