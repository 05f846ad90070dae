// What an access's fault leaves in mcause and mtval: its cause, by the access's kind, and the address that the rules judge.
ghost use Rattle.std.specs.Prelude.{◌≡◌};
ghost use Rattle.address.specs.Cause.{fault_cause_of, fault_of};

use super::Virtual;
use isa::{Exception, Fault, Kind};

// A misaligned fetch is also a jump to such an address.
pub fn of(f: Fault, k: Kind) -> u8
    ensures { result ≡ fault_cause_of f k }
{
    match (f, k) {
        (Fault::Misaligned, Kind::Fetch) => 0,
        (Fault::Misaligned, Kind::Load) => 4,
        (Fault::Misaligned, Kind::Store) => 6,
        (Fault::Misaligned, Kind::Push | Kind::Pop | Kind::Swap) => 7,
        (Fault::Access, Kind::Fetch) => 1,
        (Fault::Access, Kind::Load) => 5,
        (Fault::Access, Kind::Store | Kind::Push | Kind::Pop | Kind::Swap) => 7,
        (Fault::Page, Kind::Fetch) => 12,
        (Fault::Page, Kind::Load) => 13,
        (Fault::Page, Kind::Store | Kind::Push | Kind::Pop | Kind::Swap) => 15,
    }
}

// t is the transformed address.
pub fn fault(f: Fault, k: Kind, t: Virtual) -> Exception
    ensures { result ≡ fault_of f k t.0 }
{
    Exception {
        cause: of(f, k),
        tval: t.0,
    }
}
