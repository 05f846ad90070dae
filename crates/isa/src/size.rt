// How many bytes an access moves.
ghost use Rattle.std.specs.Prelude.{◌≡◌, ◌≤◌};
ghost use Rattle.isa.specs.Size.{size_of, width_of};

use super::{Access, Width};

pub fn bytes(w: Width) -> u64
    ensures { (result ≡ size_of w) × (result ≤ 8) }
{
    match w {
        Width::Byte => 1,
        Width::Half => 2,
        Width::Word => 4,
        Width::Double => 8,
    }
}

pub fn width(a: Access) -> Width
    ensures { result ≡ width_of a }
{
    match a {
        Access::Load(w, _) | Access::Store(w) | Access::Swap(w, _, _) => w,
        Access::Push | Access::Pop => Width::Double,
    }
}
