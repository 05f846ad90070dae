// The kind of access that a memory instruction makes.
ghost use Rattle.std.specs.Prelude.{◌≡◌};
ghost use Rattle.address.specs.Kind.{kind_of};

use isa::{Access, Kind};

pub fn kind(a: Access) -> Kind
    ensures { result ≡ kind_of a }
{
    match a {
        Access::Load(_, _) => Kind::Load,
        Access::Store(_) => Kind::Store,
        Access::Push => Kind::Push,
        Access::Pop => Kind::Pop,
        Access::Swap(_, _, _) => Kind::Swap,
    }
}
