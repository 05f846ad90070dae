// What the cases of a file are about, and what comes of one.
ghost use Rattle.std.specs.Prelude.{◌≡◌, IfOk, vec_len};
ghost use Rattle.test_lines.specs.Counted.{one_more_of};

use std::alloc::Global;
use test_acts::operation;
use test_lines::case::CaseError;
use test_lines::line::Line;
use test_lines::names::{REGISTERS, WORDS};
use test_lines::report::Report;
use test_rules::{bytes, mask, places, refused};

#[derive(Clone, Copy)]
pub enum Subject {
    // instruction words
    Decode,
    // masking
    Mask,
    // places
    Place,
    // loads and stores
    Bytes,
    // refusals 2 and 3
    Refused,
    // texts of Intel HEX
    Hex,
    // what is done to a hart
    Hart,
    // the public calls
    Call,
}

// Fifteen numbers without a name. The names of a hart's numbers were once one text with a blank behind each name, and it went over a line of the source:
// the last name before the line's end had the line feed in it, and of the sixteen blanks that the next line began with, all but the first ended an empty
// name. So the numbers behind have the names of earlier ones. What a failed case prints stays as it was: docs/DECISIONS.md, "What a failed case prints".
const GAP: [&str; 15] = [""; 15];

// What came of a case, and what is to come of it.
#[derive(Drop)]
pub struct Came {
    wanted: Vec<u64>,
    got: Vec<u64>,
}

// The numbers of a case that needs no memory.
fn listed<const N: usize>(alloc: Global, came: Option<[u64; N]>) -> Result<Vec<u64>, CaseError> {
    Ok(came.ok_or(CaseError::Given)?.to_vec(alloc)?)
}

// A call has pairs for memory among its wanted numbers, and two numbers of its own are compared.
fn called(alloc: Global, line: &Line) -> Result<Came, CaseError>
    ensures { IfOk result (λ came. vec_len came.wanted ≡ vec_len came.got) }
{
    let compared = test_calls::run(alloc, line.given, line.wanted)?;
    Ok(Came {
        wanted: compared.wanted.to_vec(alloc)?,
        got: compared.got.to_vec(alloc)?,
    })
}

impl Subject {
    // Runs a case.
    pub fn came(self, alloc: Global, line: &Line) -> Result<Came, CaseError>
        ensures { IfOk result (λ came. vec_len came.wanted ≡ vec_len came.got) }
    {
        let given = line.given;
        let got = match self {
            Subject::Decode => listed(alloc, test_decoded::run(given))?,
            Subject::Mask => listed(alloc, mask::run(given))?,
            Subject::Place => places::run(alloc, given)?.to_vec(alloc)?,
            Subject::Bytes => bytes::run(alloc, given)?,
            Subject::Refused => listed(alloc, refused::run(given))?,
            Subject::Hex => test_hexed::run(alloc, given)?,
            Subject::Hart => operation::run(given)?.to_vec(alloc)?,
            Subject::Call => return called(alloc, line),
        };
        if got.len() != line.wanted.len() {
            return Err(CaseError::Wanted);
        }
        Ok(Came {
            wanted: line.wanted.to_vec(alloc)?,
            got,
        })
    }

    // Tells what came of a case. The numbers of a hart are many, and are named where they differ.
    pub fn told<R: Print>(self, report: &mut Report<R>, line: &Line, came: &Came)
        ensures { report.new.counts.cases ≡ one_more_of report.old.counts.cases }
    {
        let wanted = came.wanted.as_slice();
        let got = came.got.as_slice();
        match self {
            Subject::Call => {
                let before = ["refusal", "count", "trapped", "cause", "pc"];
                let names = [
                    &before[..],
                    &REGISTERS[..27],
                    &["x27\n"],
                    &GAP,
                    &REGISTERS[28..],
                    &WORDS,
                ];
                report.compared(line, &names, wanted, got);
            }
            Subject::Hart => {
                let before = ["illegal-or-refused", "value", "pc"];
                let names = [
                    &before[..],
                    &REGISTERS[..28],
                    &["x28\n"],
                    &GAP,
                    &REGISTERS[29..],
                    &WORDS,
                ];
                report.compared(line, &names, wanted, got);
            }
            _ => report.judged(line, wanted, got),
        }
    }
}
