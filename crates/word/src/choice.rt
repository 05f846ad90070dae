// A choice between an old and a new value.
ghost use Rattle.std.specs.Prelude.{◌≡◌, ◌<◌};
ghost use Rattle.word.specs.Choice.{pick};

// A field's new value: what is written where the field can hold it, else the old one. Both are below `below`.
pub fn taken(ok: bool, v: u64, old: u64, below: u64) -> u64
    requires { (v < below) × (old < below) }
    ensures { (result ≡ pick ok v old) × (result < below) }
{
    if ok { v } else { old }
}
