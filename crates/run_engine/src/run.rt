// A run: steps up to and including the first that traps, or until the budget is spent. Its first steps go the short way, and the others by turns on the
// fast path and the short way.
ghost use Rattle.std.specs.Prelude.{◌≡◌, ◌^◌, ◌<◌, ◌≤◌, length};
ghost use Rattle.step_meaning.specs.Context.{Knows};
ghost use Rattle.step_meaning.specs.declared.Source.TheVariants.{Fetch};
ghost use Rattle.csr_words.specs.Setting.{setting_of};
ghost use Rattle.step_hart.specs.Hart.{hart};
ghost use Rattle.step_hart.specs.Run.{run_from};
ghost use Rattle.run_engine.specs.Told.{told_of, ran_of};

use csr_words::{COUNT, setting};
use step_hart::{Hart, step};
use step_meaning::{Context, Source};

// What a run tells beside the words: the steps taken, the trapping one included, and the last trap's cause if there was one.
#[derive(Clone, Copy)]
pub struct Told {
    pub count: u64,
    pub trap: Option<u64>,
}

// What is known beforehand about the steps of a hart with these words, until its mode or a CSR that counts for it changes.
fn known(w: &[u64; COUNT]) -> Context
    ensures { Knows result (setting_of w.now) }
{
    let s = setting::setting(w);
    Context {
        setting: s,
        flat: s.control.flat(),
    }
}

// A run of few steps: the quick way takes as many as it does, and then one takes the slow path, by its effect. The first step takes its word from
// `source`, the others fetch.
fn short(
    x: &mut [u64; 32],
    w: &mut [u64; COUNT],
    source: Source,
    mem: &mut [u8],
    map: &[u64],
    budget: u64,
) -> Told
    requires { length mem.old ≤ 2 ^ 20 }
    ensures answer { result ≡ told_of (run_from source budget (hart x.old w.old) mem.old map.now) }
    ensures hart { hart x.new w.new
        ≡ (run_from source budget (hart x.old w.old) mem.old map.now).hart }
    ensures memory { mem.new ≡ (run_from source budget (hart x.old w.old) mem.old
        map.now).memory }
{
    let mut from = source;
    let mut left = budget;
    let mut k = known(w);
    // no `for`: a turn takes as many steps as it takes
    while 0 < left {
        left = run_glide::glide(x, w, from, k, mem, map, left);
        if left == 0 {
            break;
        }
        let t = step::one(x, w, from, k.setting, mem, map);
        from = Source::Fetch;
        left = left - 1;
        if t.trap.is_some() {
            return Told {
                count: budget - left,
                trap: t.trap,
            };
        }
        if t.switched {
            k = known(w);
        }
    }
    Told {
        count: budget,
        trap: None,
    }
}

// How many steps are taken the short way before the memo is worth its clearing (docs/SPEED.md).
const FIRST: u64 = 1024;

// How many steps of the fast path are many beside its clearing.
const FAR: u64 = 32768;

// The most steps that are taken the short way between two turns of the fast path.
const MOST: u64 = 1048576;

// How many steps go the short way after so many on the fast path. Where those were many, the one that it left; else twice as many as the last time,
// so that a program that leaves the fast path again and again, at each landing pad, say, does not clear the memo for nothing.
fn pause(steps: u64, wait: u64) -> u64
    ensures { 0 < result }
{
    if FAR < steps {
        return 1;
    }
    wait.clamp(FIRST / 2, MOST / 2) * 2
}

// A run of many steps, on the fast path as long as it goes. That is called from two places, so that the compiler leaves its memo out of the frame of
// short runs, which would pay for it.
fn long(x: &mut [u64; 32], w: &mut [u64; COUNT], mem: &mut [u8], map: &[u64], budget: u64) -> Told
    requires { length mem.old ≤ 2 ^ 20 }
    ensures answer { result ≡ told_of (run_from Fetch budget (hart x.old w.old) mem.old map.now) }
    ensures hart { hart x.new w.new
        ≡ (run_from Fetch budget (hart x.old w.old) mem.old map.now).hart }
    ensures memory { mem.new ≡ (run_from Fetch budget (hart x.old w.old) mem.old
        map.now).memory }
{
    let mut left = run_fast::fast(x, w, mem, map, budget);
    let mut steps = budget - left;
    let mut wait = 0;
    // no `for`, as above
    while 0 < left {
        wait = pause(steps, wait);
        let n = left.min(wait);
        let part = short(x, w, Source::Fetch, mem, map, n);
        if part.trap.is_some() {
            return Told {
                count: budget - left + part.count,
                trap: part.trap,
            };
        }
        let rest = run_fast::fast(x, w, mem, map, left - n);
        steps = left - n - rest;
        left = rest;
    }
    Told {
        count: budget,
        trap: None,
    }
}

pub fn run(
    x: &mut [u64; 32],
    w: &mut [u64; COUNT],
    source: Source,
    mem: &mut [u8],
    map: &[u64],
    budget: u64,
) -> Told
    requires { length mem.old ≤ 2 ^ 20 }
    ensures answer { result ≡ told_of (run_from source budget (hart x.old w.old) mem.old map.now) }
    ensures hart { hart x.new w.new
        ≡ (run_from source budget (hart x.old w.old) mem.old map.now).hart }
    ensures memory { mem.new ≡ (run_from source budget (hart x.old w.old) mem.old
        map.now).memory }
{
    let first = budget.min(FIRST);
    let t = short(x, w, source, mem, map, first);
    if t.trap.is_some() || budget == first {
        return t;
    }
    let u = long(x, w, mem, map, budget - first);
    Told {
        count: first + u.count,
        trap: u.trap,
    }
}

// What a run of a hart by value hands back.
#[derive(Clone, Copy)]
pub struct Ran {
    pub hart: Hart,
    pub count: u64,
    pub trap: Option<u64>,
}

// The same of a hart by value.
pub fn of_hart(mut h: Hart, source: Source, mem: &mut [u8], map: &[u64], budget: u64) -> Ran
    requires { length mem.old ≤ 2 ^ 20 }
    ensures answer { result ≡ ran_of (run_from source budget h mem.old map.now) }
    ensures memory { mem.new ≡ (run_from source budget h mem.old map.now).memory }
{
    let told = run(&mut h.x, &mut h.words, source, mem, map, budget);
    Ran {
        hart: h,
        count: told.count,
        trap: told.trap,
    }
}
