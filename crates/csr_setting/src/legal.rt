// Refusal 1, of the mode.
ghost use Rattle.std.specs.Prelude.{◌≡◌};
ghost use Rattle.csr_setting.specs.Legal.{is_mode_of};

pub fn is_mode(m: u64) -> bool
    ensures { result ≡ is_mode_of m }
{
    matches!(m, 0 | 1 | 3)
}
