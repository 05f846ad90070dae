// The quick way through a run: common instructions in place, one after the other, up to one that has to take the slow path. The loop is small
// enough for the compiler to keep pc and the count in registers.
#![tactic(auto)]

ghost use Rattle.std.specs.Prelude.{false, ◌≡◌, ◌^◌, ◌≤◌, length};
ghost use Rattle.address_place.specs.Window.{Shows};
ghost use Rattle.step_meaning.specs.Context.{Knows};
ghost use Rattle.step_meaning.specs.declared.Source.TheVariants.{Fetch};
ghost use Rattle.csr_words.specs.Setting.{setting_of};
ghost use Rattle.step_hart.specs.Hart.{hart};
ghost use Rattle.step_hart.specs.Run.{run_from, Midway};
ghost use Rattle.run_turn.specs.Glide.{Straight, Fetches, TurnTaken, Glides};

use address_place::window;
use address_place::window::Window;
use csr_words::{COUNT, ELP, PC};
use run_quick::opcodes;
use run_turn::Glided;
use step_meaning::{Context, Source};
use word::sum;

// The instruction of a word, which was fetched at pc.
fn instruction(
    word: u32,
    x: &mut [u64; 32],
    w: &mut [u64; COUNT],
    pc: u64,
    k: Context,
    mem: &mut [u8],
    map: &[u64],
) -> Option<u64>
    requires { (length mem.old ≤ 2 ^ 20) × Straight w.old × Knows k (setting_of w.old) × Fetches word pc w.old mem.old map.now }
    ensures { TurnTaken result pc x.old w.old mem.old map.now x.new w.new mem.new }
{
    if let Some(next) = opcodes::word(word, x, w, pc, k, mem, map) {
        return Some(next);
    }
    if run_csrs::handle(word, x, w) {
        return Some(sum::sum(pc, 4));
    }
    None
}

// The step at pc, where the window shows its word.
fn turn(
    x: &mut [u64; 32],
    w: &mut [u64; COUNT],
    pc: u64,
    v: Window,
    k: Context,
    mem: &mut [u8],
    map: &[u64],
) -> Option<u64>
    requires { (length mem.old ≤ 2 ^ 20) × Straight w.old × Knows k (setting_of w.old)
        × Shows v k.setting.control map.now (length mem.old) }
    ensures { TurnTaken result pc x.old w.old mem.old map.now x.new w.new mem.new }
{
    let word = opcodes::fetch(v, pc, mem)?;
    instruction(word, x, w, pc, k, mem, map)
}

// As many steps as the quick way takes in a window.
fn stretch(
    x: &mut [u64; 32],
    w: &mut [u64; COUNT],
    start: u64,
    v: Window,
    k: Context,
    mem: &mut [u8],
    map: &[u64],
    budget: u64,
) -> Glided
    requires { (length mem.old ≤ 2 ^ 20) × Straight w.old × Knows k (setting_of w.old)
        × Shows v k.setting.control map.now (length mem.old) }
    ensures steps { Glides budget start x.old w.old mem.old map.now result x.new
        w.new mem.new }
    ensures words { Straight w.new × (setting_of w.new ≡ setting_of w.old) }
{
    let mut pc = start;
    for taken in 0..budget {
        let Some(next) = turn(x, w, pc, v, k, mem, map) else {
            return Glided {
                pc,
                left: budget - taken,
            };
        };
        pc = next;
    }
    Glided { pc, left: 0 }
}

// From window to window. A step that its window covers and that was not taken has to take the slow path.
fn steps(
    x: &mut [u64; 32],
    w: &mut [u64; COUNT],
    start: u64,
    k: Context,
    mem: &mut [u8],
    map: &[u64],
    budget: u64,
) -> Glided
    requires { (length mem.old ≤ 2 ^ 20) × Straight w.old × Knows k (setting_of w.old) }
    ensures steps { Glides budget start x.old w.old mem.old map.now result x.new
        w.new mem.new }
    ensures words { Straight w.new × (setting_of w.new ≡ setting_of w.old) }
{
    let mut at = Glided {
        pc: start,
        left: budget,
    };
    while 0 < at.left {
        let v = window::around(k.setting.control, at.pc, map, mem);
        let next = stretch(x, w, at.pc, v, k, mem, map, at.left);
        if at.left <= next.left || window::covers(v, next.pc) {
            return next;
        }
        at = next;
    }
    at
}

// Whether the next step has to take the slow path: its word is given, or a landing pad is expected.
fn waits(source: Source, elp: u64) -> bool
    ensures { result ≡ false → (source ≡ Fetch) × (elp ≡ 0) }
{
    match source {
        Source::Fetch => 0 < elp,
        Source::Given(_) => true,
    }
}

// As many steps as the quick way takes; what is left of the budget.
pub fn glide(
    x: &mut [u64; 32],
    w: &mut [u64; COUNT],
    source: Source,
    k: Context,
    mem: &mut [u8],
    map: &[u64],
    budget: u64,
) -> u64
    requires { (length mem.old ≤ 2 ^ 20) × Knows k (setting_of w.old) }
    ensures steps { Midway (run_from source budget (hart x.old w.old) mem.old map.now) budget result
        source (hart x.new w.new) mem.new map.now }
    ensures setting { setting_of w.new ≡ setting_of w.old }
{
    if waits(source, w[ELP]) {
        return budget;
    }
    let pc = w[PC];
    let g = steps(x, w, pc, k, mem, map, budget);
    w[PC] = g.pc;
    g.left
}
