// The decoder's verdict as a number, for C (include/sporhulma.h).
//
// A static library of its own: the compiler puts `decode` into the run's loop only while that is its one caller.
#![tactic(auto)]

ghost use Rattle.std.specs.Prelude.{◌≡◌};
ghost use Rattle.decode.specs.Decode.{decode_of};
ghost use Rattle.family.specs.Family.{family_of};

// The family of the instruction that a word names, or 0.
#[unsafe(no_mangle)]
pub extern "C" fn sporhulma_family(word: u32) -> u64
    ensures { result ≡ family_of (decode_of word) }
{
    family::sporhulma_family(word)
}
