// and, or, xor: the library's own operations on the binary digits of two numbers.
ghost use Rattle.std.specs.Prelude.{◌≡◌, bit_and, bit_or, bit_xor};

pub fn and(a: u64, b: u64) -> u64
    ensures { result ≡ bit_and a b }
{
    a & b
}

pub fn or(a: u64, b: u64) -> u64
    ensures { result ≡ bit_or a b }
{
    a | b
}

pub fn xor(a: u64, b: u64) -> u64
    ensures { result ≡ bit_xor a b }
{
    a ^ b
}
