// Whether a trap goes to S or to M.
ghost use Rattle.std.specs.Prelude.{◌≡◌};
ghost use Rattle.csr_trap.specs.Route.{delegated_of, to_s_of};

use isa::Mode;
use word::shift;

// The cause's bit of medeleg.
pub fn delegated(medeleg: u64, cause: u64) -> bool
    ensures { result ≡ delegated_of medeleg cause }
{
    cause < 64 && shift::right::<64>(medeleg, cause) % 2 == 1
}

// To S if below M and delegated, else M.
pub fn to_s(m: Mode, delegated: bool) -> bool
    ensures { result ≡ to_s_of m delegated }
{
    match m {
        Mode::User | Mode::Supervisor => delegated,
        Mode::Machine => false,
    }
}
