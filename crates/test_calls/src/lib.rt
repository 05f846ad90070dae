// The cases of the public calls: a call, its argument, the length of memory, a hart, a page map and the content of
// memory, and what comes of it: the answer, and every byte of memory.
//
// The given numbers are the call (0 step, 1 step of a given word, 2 run), its argument (0, the word or the budget), and what crate
// `test_scene` says. The wanted ones are refusal, count, whether it trapped, cause, the hart, and pairs for what has changed in memory.
#![tactic(auto)]

ghost use Rattle.std.specs.Prelude.{◌≤◌, OnOk, length};

use run_call::Answer;
use std::alloc::Global;
use step_hart::Hart;
use test_acts::state;
use test_lines::case::CaseError;
use test_scene::Scene;

// How many numbers an answer is, and where its hart starts among them; and how many numbers are compared: two more, on memory.
const ANSWER: usize = 56;

const HART: usize = 4;

const COMPARED: usize = 58;

#[derive(Clone, Copy)]
enum Call {
    Step,
    StepWord(u32),
    Run(u64),
}

// By its number and its argument.
impl TryFrom<[u64; 2]> for Call {
    type Error = CaseError;

    fn try_from(numbers: [u64; 2]) -> Result<Call, CaseError> {
        match numbers {
            [0, 0] => Ok(Call::Step),
            [1, word @ 0..=0xffff_ffff] => Ok(Call::StepWord(word as u32)),
            [2, budget] => Ok(Call::Run(budget)),
            _ => Err(CaseError::Given),
        }
    }
}

impl Call {
    fn made(self, h: Hart, mem: &mut [u8], map: &[u64]) -> Answer {
        match self {
            Call::Step => run_machine::step(h, mem, map),
            Call::StepWord(word) => run_machine::step_word(h, mem, map, word),
            Call::Run(budget) => run_machine::run(h, mem, map, budget),
        }
    }
}

// What is compared of a case.
#[derive(Clone, Copy)]
pub struct Compared {
    pub wanted: [u64; COMPARED],
    pub got: [u64; COMPARED],
}

fn shown(a: Answer) -> [u64; ANSWER] {
    let mut numbers = [0u64; ANSWER];
    numbers[..HART].copy_from_slice(&[
        a.refusal.map_or(0, |refusal| refusal.number()),
        a.count,
        u64::from(a.trap.is_some()),
        a.trap.unwrap_or(0),
    ]);
    numbers[HART..].copy_from_slice(&state::numbers(a.hart));
    numbers
}

fn joined(answer: &[u64; ANSWER], memory: [u64; 2]) -> [u64; COMPARED] {
    let mut numbers = [0u64; COMPARED];
    numbers[..ANSWER].copy_from_slice(answer);
    numbers[ANSWER..].copy_from_slice(&memory);
    numbers
}

// What comes of a case, and what is to come of it by its wanted numbers.
pub fn run(alloc: Global, given: &[u64], wanted: &[u64]) -> Result<Compared, CaseError>
    ensures { OnOk result (56 ≤ length wanted.now) }
{
    let [call, argument, scene @ ..] = given else {
        return Err(CaseError::Given);
    };
    let call = Call::try_from([*call, *argument])?;
    let scene = Scene::read(alloc, scene)?;
    let (wanted, changed) = wanted.split_first_chunk().ok_or(CaseError::Wanted)?;
    let mut mem = scene.memory(alloc, &[])?;
    let right = scene.memory(alloc, changed)?;
    let answer = call.made(state::of_numbers(scene.hart), &mut mem, &scene.map);
    let told = test_scene::told(test_scene::first_difference(&mem, &right));
    Ok(Compared {
        wanted: joined(wanted, told.0),
        got: joined(&shown(answer), told.1),
    })
}
