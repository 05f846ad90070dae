// Sums and differences modulo 2^64; their word forms are the same, sign-extended, so they repeat nothing that a size as a const parameter would save.
ghost use Rattle.std.specs.Prelude.{◌≡◌};
ghost use Rattle.word.specs.Sum.{sum_of, difference_of, sum_word_of, difference_word_of};

use super::sign::extend;

pub fn sum(a: u64, b: u64) -> u64
    ensures { result ≡ sum_of a b }
{
    a.wrapping_add(b)
}

pub fn difference(a: u64, b: u64) -> u64
    ensures { result ≡ difference_of a b }
{
    a.wrapping_sub(b)
}

pub fn sum_word(a: u64, b: u64) -> u64
    ensures { result ≡ sum_word_of a b }
{
    extend::<32>(sum(a, b))
}

pub fn difference_word(a: u64, b: u64) -> u64
    ensures { result ≡ difference_word_of a b }
{
    extend::<32>(difference(a, b))
}
