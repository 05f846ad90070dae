// The three shifts by the low bits of an amount. BITS is 64, and an amount has six bits; or it is 32: the word forms shift
// the low 32 bits by five bits of an amount, and the result is sign-extended.
ghost use Rattle.std.specs.Prelude.{◌≡◌};
ghost use Rattle.word.specs.Shift.{left_of, right_of, arithmetic_of, left_word_of, right_word_of, arithmetic_word_of};
ghost use Rattle.word.specs.Size.{IsSize, sized};

use super::sign::{extend, low};

pub fn left<const BITS: u64>(a: u64, n: u64) -> u64
    requires { IsSize BITS }
    ensures { result ≡ sized BITS (left_of a n) (left_word_of a n) }
{
    extend::<BITS>(a << (n % BITS))
}

pub fn right<const BITS: u64>(a: u64, n: u64) -> u64
    requires { IsSize BITS }
    ensures { result ≡ sized BITS (right_of a n) (right_word_of a n) }
{
    extend::<BITS>(low::<BITS>(a) >> (n % BITS))
}

pub fn arithmetic<const BITS: u64>(a: u64, n: u64) -> u64
    requires { IsSize BITS }
    ensures { result ≡ sized BITS (arithmetic_of a n) (arithmetic_word_of a n) }
{
    (extend::<BITS>(a).cast_signed() >> (n % BITS)).cast_unsigned()
}
