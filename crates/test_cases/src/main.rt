// Runs the files of cases and prints a line for each case, and the counts.
//
// A file of another kind of case gets a line in `FILES`, with a subject (module `subject`), which gets an arm in `Subject::came`, and a
// module with a `run` of its own (crates `test_rules`, `test_hexed` and `test_acts`).
#![tactic(auto)]

ghost use Rattle.std.specs.Prelude.{◌≡◌};
ghost use Rattle.test_lines.specs.Counted.{one_more_of};

use std::alloc::Global;
use std::rt::Files;
use subject::Subject;
use test_lines::line::MOST;
use test_lines::report::Report;
use test_lines::{file, line};

// What the cases of a file are about.
mod subject;

const FILES: [(Subject, &str); 22] = [
    (Subject::Decode, "decode.txt"),
    (Subject::Mask, "mask.txt"),
    (Subject::Place, "place.txt"),
    (Subject::Bytes, "bytes.txt"),
    (Subject::Refused, "refused.txt"),
    (Subject::Hex, "hex.txt"),
    (Subject::Hart, "access.txt"),
    (Subject::Hart, "csr.txt"),
    (Subject::Hart, "enable.txt"),
    (Subject::Hart, "regime.txt"),
    (Subject::Hart, "legal.txt"),
    (Subject::Hart, "trap.txt"),
    (Subject::Hart, "returns.txt"),
    (Subject::Call, "instruction.txt"),
    (Subject::Call, "control.txt"),
    (Subject::Call, "shadow.txt"),
    (Subject::Call, "pad.txt"),
    (Subject::Call, "fault.txt"),
    (Subject::Call, "run.txt"),
    (Subject::Call, "refusal.txt"),
    (Subject::Call, "program.txt"),
    (Subject::Call, "arithmetic.txt"),
];

// A line that is to have a case.
fn judge<R: Print>(alloc: Global, report: &mut Report<R>, subject: Subject, source: &[u8])
    ensures { report.new.counts.cases ≡ one_more_of report.old.counts.cases }
{
    let mut room = [0u64; MOST];
    let line = match line::read(source, &mut room) {
        Ok(line) => line,
        Err(error) => return report.broken(source, error),
    };
    match subject.came(alloc, &line) {
        Ok(came) => subject.told(report, &line, &came),
        Err(error) => report.broken(source, error),
    }
}

fn every_line<R: Print>(alloc: Global, report: &mut Report<R>, subject: Subject, text: &[u8]) {
    for line in text.split_inclusive(|byte| *byte == b'\n') {
        let source = line.strip_suffix(b"\n").unwrap_or(line);
        if source.is_empty() || source.starts_with(b"#") {
            report.heading(source);
        } else {
            judge(alloc, report, subject, source);
        }
    }
}

fn every_case<R: Files + Print + AllocGlobal>(
    report: &mut Report<R>,
    subject: Subject,
    name: &str,
) {
    let rt = report.rt;
    match file::read(rt, name) {
        Ok(text) => {
            let before = report.counts.cases;
            report.heading(name.as_bytes());
            every_line(rt.alloc(), report, subject, &text);
            if report.counts.cases == before {
                report.broken(name.as_bytes(), "has no case");
            }
        }
        Err(error) => report.broken(name.as_bytes(), error),
    }
}

fn main(rt: HostRuntime) {
    let mut report = Report::new(&rt);
    for (subject, name) in FILES {
        every_case(&mut report, subject, name);
    }
    report.total();
}
