// The public calls: a step that fetches, a step with a given word, and a run.
//
// Anything may be handed in: each call takes it, or answers with refusal 1 to 4 and changes nothing. The promises are stated in
// crates/run_call/specs/Call.antt.
#![tactic(auto)]

ghost use Rattle.std.specs.Prelude.{◌≡◌};
ghost use Rattle.run_call.specs.Call.{step_from_call, step_call_of, step_word_call, run_call_of};

use run_call::Answer;
use run_engine::run;
use step_hart::Hart;
use step_meaning::Source;

// A step that fetches, or that takes a given word.
fn stepped(h: Hart, source: Source, mem: &mut [u8], map: &[u64]) -> Answer
    ensures answer { result ≡ (step_from_call source h mem.old map.now).answer }
    ensures memory { mem.new ≡ (step_from_call source h mem.old map.now).memory }
{
    if let Some(refusal) = run_call::step_refusal(&h.x, &h.words, mem, map) {
        return run_call::refused(refusal, h);
    }
    let after = h.step(source, mem, map);
    Answer {
        refusal: None,
        hart: after.hart,
        count: 1,
        trap: after.trap,
    }
}

// One step, which fetches at pc.
pub fn step(h: Hart, mem: &mut [u8], map: &[u64]) -> Answer
    ensures answer { result ≡ (step_call_of h mem.old map.now).answer }
    ensures memory { mem.new ≡ (step_call_of h mem.old map.now).memory }
{
    stepped(h, Source::Fetch, mem, map)
}

// One step with a given word, as if it had been fetched at pc.
pub fn step_word(h: Hart, mem: &mut [u8], map: &[u64], word: u32) -> Answer
    ensures answer { result ≡ (step_word_call word h mem.old map.now).answer }
    ensures memory { mem.new ≡ (step_word_call word h mem.old map.now).memory }
{
    stepped(h, Source::Given(word), mem, map)
}

// Steps up to and including the first that traps, or until the budget is spent.
pub fn run(h: Hart, mem: &mut [u8], map: &[u64], budget: u64) -> Answer
    ensures answer { result ≡ (run_call_of budget h mem.old map.now).answer }
    ensures memory { mem.new ≡ (run_call_of budget h mem.old map.now).memory }
{
    if let Some(refusal) = run_call::run_refusal(&h.x, &h.words, mem, map, budget) {
        return run_call::refused(refusal, h);
    }
    let ran = run::of_hart(h, Source::Fetch, mem, map, budget);
    Answer {
        refusal: None,
        hart: ran.hart,
        count: ran.count,
        trap: ran.trap,
    }
}
