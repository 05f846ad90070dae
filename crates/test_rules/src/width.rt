// The width that a number of bytes names, as the cases of loads, stores and translations are given it.
ghost use Rattle.std.specs.Prelude.{◌≡◌, ◌↔◌};
ghost use Rattle.isa.specs.Size.{size_of};
ghost use Rattle.isa.specs.declared.Width.{Width};

use isa::Width;

pub fn of(bytes: u64) -> Option<Width>
    ensures { (w : Width) → (result ≡ Some w ↔ bytes ≡ size_of w) }
{
    match bytes {
        1 => Some(Width::Byte),
        2 => Some(Width::Half),
        4 => Some(Width::Word),
        8 => Some(Width::Double),
        _ => None,
    }
}
