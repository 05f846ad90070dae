// What the rules ask of a kind of access: is it a fetch, a shadow access, does it write.
ghost use Rattle.std.specs.Prelude.{◌≡◌};
ghost use Rattle.address_page.specs.Kinds.{is_shadow_of, is_fetch_of, writes};

use isa::Kind;

pub fn is_shadow(k: Kind) -> bool
    ensures { result ≡ is_shadow_of k }
{
    matches!(k, Kind::Push | Kind::Pop | Kind::Swap)
}

pub fn is_fetch(k: Kind) -> bool
    ensures { result ≡ is_fetch_of k }
{
    matches!(k, Kind::Fetch)
}

pub fn writes(k: Kind) -> bool
    ensures { result ≡ writes k }
{
    matches!(k, Kind::Store | Kind::Push | Kind::Swap)
}
