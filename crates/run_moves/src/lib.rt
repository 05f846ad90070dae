// The instructions that move words between registers and memory, on the quick way (crate `run_quick`). An instruction that was done says
// where pc goes on; left undone, it says `None` and changes nothing: the slow path does it.
#![tactic(auto)]

ghost use Rattle.std.specs.Prelude.{Some, ◌≡◌};
ghost use Rattle.step_effect.specs.Register.{put_of};

use step_effect::register;

// Loads, stores, push and pop-check.
pub mod data;

// Done: rd takes v, and pc goes on at `next`.
pub fn wrote(x: &mut [u64; 32], rd: u8, v: u64, next: u64) -> Option<u64>
    ensures { (result ≡ Some next) × (x.new ≡ put_of rd v x.old) }
{
    register::put(x, rd, v);
    Some(next)
}
