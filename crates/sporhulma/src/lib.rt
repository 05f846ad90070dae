// The boundary for C and Rust (include/sporhulma.h): the three calls of crate `run_machine` over words and bytes, and the load of crate `intel_hex`, as a
// static library.
//
// A hart is the words x and rest. Anything may be handed in; what a call leaves of every word and byte is stated in
// specs/Boundary.antt, and what a load leaves in specs/Load.antt.
#![tactic(auto)]

ghost use Rattle.std.specs.Prelude.{◌≡◌, [], ◌∷◌};
ghost use Rattle.sporhulma.specs.Boundary.{step_left_of, step_word_left, run_left, left_from};
ghost use Rattle.sporhulma.specs.Load.{load_left};

use csr_words::COUNT;
use run_engine::run;
use step_meaning::Source;

// A run whose first word comes from `source`. The caller's words are the hart: nothing is copied, in or out.
fn call(
    x: &mut [u64; 32],
    rest: &mut [u64; COUNT],
    source: Source,
    mem: &mut [u8],
    map: &[u64],
    budget: u64,
    answer: &mut [u64; 3],
) -> u64
    ensures result { result ≡ (left_from source budget x.old rest.old mem.old map.now).result }
    ensures registers { x.new ≡ (left_from source budget x.old rest.old mem.old
        map.now).x }
    ensures others { rest.new ≡ (left_from source budget x.old rest.old mem.old
        map.now).rest }
    ensures memory { mem.new ≡ (left_from source budget x.old rest.old mem.old
        map.now).memory }
    ensures answer { answer.new ≡ (left_from source budget x.old rest.old mem.old
        map.now).answer }
{
    if let Some(refusal) = run_call::run_refusal(x, rest, mem, map, budget) {
        *answer = [0, 0, 0];
        return refusal.number();
    }
    let t = run::run(x, rest, source, mem, map, budget);
    *answer = match t.trap {
        Some(cause) => [t.count, 1, cause],
        None => [t.count, 0, 0],
    };
    0
}

// One step, which fetches at pc.
#[unsafe(no_mangle)]
pub extern "C" fn sporhulma_step(
    x: &mut [u64; 32],
    rest: &mut [u64; COUNT],
    mem: &mut [u8],
    map: &[u64],
    answer: &mut [u64; 3],
) -> u64
    ensures result { result ≡ (step_left_of x.old rest.old mem.old map.now).result }
    ensures registers { x.new ≡ (step_left_of x.old rest.old mem.old map.now).x }
    ensures others { rest.new ≡ (step_left_of x.old rest.old mem.old map.now).rest }
    ensures memory { mem.new ≡ (step_left_of x.old rest.old mem.old map.now).memory }
    ensures answer { answer.new ≡ (step_left_of x.old rest.old mem.old map.now).answer }
{
    call(x, rest, Source::Fetch, mem, map, 1, answer)
}

// One step with a given word, as if it had been fetched at pc.
#[unsafe(no_mangle)]
pub extern "C" fn sporhulma_step_word(
    x: &mut [u64; 32],
    rest: &mut [u64; COUNT],
    mem: &mut [u8],
    map: &[u64],
    word: u32,
    answer: &mut [u64; 3],
) -> u64
    ensures result { result ≡ (step_word_left word x.old rest.old mem.old map.now).result }
    ensures registers { x.new ≡ (step_word_left word x.old rest.old mem.old map.now).x }
    ensures others { rest.new ≡ (step_word_left word x.old rest.old mem.old map.now).rest }
    ensures memory { mem.new ≡ (step_word_left word x.old rest.old mem.old map.now).memory }
    ensures answer { answer.new
        ≡ (step_word_left word x.old rest.old mem.old map.now).answer }
{
    call(x, rest, Source::Given(word), mem, map, 1, answer)
}

// Steps up to and including the first that traps, or until the budget is spent.
#[unsafe(no_mangle)]
pub extern "C" fn sporhulma_run(
    x: &mut [u64; 32],
    rest: &mut [u64; COUNT],
    mem: &mut [u8],
    map: &[u64],
    budget: u64,
    answer: &mut [u64; 3],
) -> u64
    ensures result { result ≡ (run_left budget x.old rest.old mem.old map.now).result }
    ensures registers { x.new ≡ (run_left budget x.old rest.old mem.old map.now).x }
    ensures others { rest.new ≡ (run_left budget x.old rest.old mem.old map.now).rest }
    ensures memory { mem.new ≡ (run_left budget x.old rest.old mem.old map.now).memory }
    ensures answer { answer.new ≡ (run_left budget x.old rest.old mem.old map.now).answer }
{
    call(x, rest, Source::Fetch, mem, map, budget, answer)
}

// A text of Intel HEX, loaded into memory.
#[unsafe(no_mangle)]
pub extern "C" fn sporhulma_load_hex(mem: &mut [u8], text: &[u8], answer: &mut [u64; 3]) -> u64
    ensures result { result ≡ (load_left text.now mem.old).result }
    ensures memory { mem.new ≡ (load_left text.now mem.old).memory }
    ensures answer { answer.new ≡ (load_left text.now mem.old).answer }
{
    let (result, words) = match intel_hex::load(text, mem) {
        Ok(None) => (0, [0, 0, 0]),
        Ok(Some(start)) => (0, [0, 1, start]),
        Err(refusal) => (refusal.number(), [refusal.line(), 0, 0]),
    };
    *answer = words;
    result
}
