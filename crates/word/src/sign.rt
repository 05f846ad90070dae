// The low bits of a number, with their sign or without one, as 64 bits.
ghost use Rattle.std.specs.Prelude.{◌≡◌, ◌%◌, ◌^◌, ◌<◌, ◌≤◌};
ghost use Rattle.word.specs.Sign.{sign_extend_of};

// With zeros above them: they go to the top of the word, and come back.
pub fn low<const BITS: u64>(v: u64) -> u64
    requires { (0 < BITS) × (BITS ≤ 64) }
    ensures { result ≡ v % 2 ^ BITS }
{
    let above = 64 - BITS;
    v << above >> above
}

// With copies of the topmost above them, by the shift that keeps a sign.
pub fn extend<const BITS: u64>(v: u64) -> u64
    requires { (0 < BITS) × (BITS ≤ 64) }
    ensures { result ≡ sign_extend_of BITS v }
{
    let above = 64 - BITS;
    ((v << above).cast_signed() >> above).cast_unsigned()
}
