// A step: the effect of the instruction at pc, or of a given word, applied to the hart and to memory.
ghost use Rattle.std.specs.Prelude.{false, ◌≡◌, ◌^◌, ◌≤◌, length};
ghost use Rattle.csr_words.specs.Setting.{setting_of};
ghost use Rattle.step_hart.specs.Hart.{hart};
ghost use Rattle.step_hart.specs.Step.{step_from, trap_told};

use super::apply;
use super::apply::Done;
use csr_setting::Setting;
use csr_words::{COUNT, ELP, PC, SSP};
use step_execute::plan;
use step_meaning::Source;

// One step of the hart of these words, whose setting is known.
pub fn one(
    x: &mut [u64; 32],
    w: &mut [u64; COUNT],
    source: Source,
    s: Setting,
    mem: &mut [u8],
    map: &[u64],
) -> Done
    requires { (length mem.old ≤ 2 ^ 20) × (s ≡ setting_of w.old) }
    ensures registers { x.new ≡ (step_from source (hart x.old w.old) mem.old
        map.now).hart.x }
    ensures words { w.new ≡ (step_from source (hart x.old w.old) mem.old
        map.now).hart.words }
    ensures memory { mem.new ≡ (step_from source (hart x.old w.old) mem.old
        map.now).memory }
    ensures told { result.trap ≡ trap_told (step_from source (hart x.old w.old) mem.old map.now).trapped
        (step_from source (hart x.old w.old) mem.old map.now).cause }
    ensures setting { result.switched ≡ false → setting_of w.new ≡ setting_of w.old }
{
    let e = plan::plan(source, x, w[PC], w[ELP] == 1, w[SSP], s, mem, map);
    apply::apply(x, w, mem, e)
}
