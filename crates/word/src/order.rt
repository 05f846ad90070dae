// Signed and unsigned order of 64-bit words.
ghost use Rattle.std.specs.Prelude.{◌≡◌, nat_lt};
ghost use Rattle.word.specs.Order.{signed_less_of};

pub fn unsigned_less(a: u64, b: u64) -> bool
    ensures { result ≡ nat_lt a b }
{
    a < b
}

pub fn signed_less(a: u64, b: u64) -> bool
    ensures { result ≡ signed_less_of a b }
{
    a.cast_signed() < b.cast_signed()
}
