// What a number says that can be 0 or 1.
ghost use Rattle.std.specs.Prelude.{◌≡◌, ◌↔◌, true, false};

pub fn of(n: u64) -> Option<bool>
    ensures no { result ≡ Some false ↔ n ≡ 0 }
    ensures yes { result ≡ Some true ↔ n ≡ 1 }
{
    match n {
        0 => Some(false),
        1 => Some(true),
        _ => None,
    }
}
