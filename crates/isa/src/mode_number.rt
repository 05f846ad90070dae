// Modes and their numbers.
ghost use Rattle.std.specs.Prelude.{◌≡◌, ◌≤◌};
ghost use Rattle.isa.specs.Mode.{number_of, mode_of};

use super::Mode;

impl From<Mode> for u64 {
    ghost from_gives = { λ m n. (n ≡ number_of m) × (n ≤ 3) };

    fn from(m: Mode) -> u64 {
        match m {
            Mode::User => 0,
            Mode::Supervisor => 1,
            Mode::Machine => 3,
        }
    }
}

// The mode that a number stands for. Another number than 0, 1 and 3 stands for U, which may do least.
impl From<u64> for Mode {
    ghost from_gives = { λ n m. m ≡ mode_of n };

    #[tactic(auto, unfolding(crate::specs::Mode::mode_of))]
    fn from(n: u64) -> Mode {
        match n {
            3 => Mode::Machine,
            1 => Mode::Supervisor,
            _ => Mode::User,
        }
    }
}
