// A step's effect, in the order of docs/HART.md, 10.1: fetch faults, then the landing pad check, then decoding, then the instruction.
ghost use Rattle.std.specs.Prelude.{◌≡◌, ◌^◌, ◌≤◌, length};
ghost use Rattle.step_meaning.specs.Plan.{fetched_of, is_pad_of, landed_of, effect_of};

use super::instruction;
use address::Virtual;
use address::control::Control;
use address_place::steps;
use csr_setting::Setting;
use isa::Exception;
use step_effect::Effect;
use step_effect::register::reg;
use step_meaning::Source;
use word::sum;

#[tactic(auto, unfolding(step_meaning::specs::Plan::fetched_of))]
fn fetch(source: Source, c: Control, pc: u64, mem: &[u8], map: &[u64]) -> Result<u32, Exception>
    requires { length mem.now ≤ 2 ^ 20 }
    ensures { result ≡ fetched_of source c pc mem.now map.now }
{
    match source {
        Source::Given(w) => Ok(w),
        Source::Fetch => {
            let q = steps::fetch(c, Virtual(pc), map, mem)?;
            Ok(memory::word(mem, q.index()))
        }
    }
}

// Whether a word is a landing pad for x7: AUIPC with rd x0 whose upper 20 bits are 0 or those of x7.
fn is_pad(w: u32, x7: u64) -> bool
    ensures { result ≡ is_pad_of w x7 }
{
    let label = u64::from(w / 4096);
    w % 4096 == 0b0010111 && (label == 0 || label == x7 / 4096 % 0x10_0000)
}

// The effect of a word that was fetched or given.
#[tactic(auto, unfolding(step_meaning::specs::Plan::landed_of))]
fn landed(
    w: u32,
    x: &[u64; 32],
    pc: u64,
    elp: bool,
    ssp: u64,
    s: Setting,
    mem: &[u8],
    map: &[u64],
) -> Effect
    requires { length mem.now ≤ 2 ^ 20 }
    ensures { result ≡ landed_of w x.now pc elp ssp s mem.now map.now }
{
    if elp && s.pad {
        if is_pad(w, reg(x, 7)) {
            return Effect::Pad(sum::sum(pc, 4));
        }
        return Effect::Trap(18, 2);
    }
    instruction::execute(decode::decode(w), w, x, pc, ssp, s, mem, map)
}

pub fn plan(
    source: Source,
    x: &[u64; 32],
    pc: u64,
    elp: bool,
    ssp: u64,
    s: Setting,
    mem: &[u8],
    map: &[u64],
) -> Effect
    requires { length mem.now ≤ 2 ^ 20 }
    ensures { result ≡ effect_of source x.now pc elp ssp s mem.now map.now }
{
    let c = s.control;
    match fetch(source, c, pc, mem, map) {
        Ok(w) => landed(w, x, pc, elp, ssp, s, mem, map),
        Err(e) => Effect::Trap(e.cause, e.tval),
    }
}
