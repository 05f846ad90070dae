// What is printed, and the counts of it. Whatever is wrong with a file or a line is a failed case, with
// a line that says what: nothing is skipped in silence.
ghost use Rattle.std.specs.Prelude.{◌≡◌, ◌≢◌, true, false};
ghost use Rattle.test_lines.specs.Counted.{one_more_of};

use super::line::Line;
use std::fmt::Display;
use std::{fmt, iter};

// A count stays at the largest number, so that it never falls back to 0.
#[derive(Clone, Copy, Debug, Default, PartialEq, Eq)]
pub struct Counts {
    pub cases: u64,
    pub failed: u64,
}

// Numbers, each with a blank before it.
#[derive(Clone, Copy)]
struct Listed<'a>(&'a [u64]);

impl Display for Listed<'_> {
    fn fmt<W: fmt::Write>(&self, f: &mut fmt::Formatter<W>) -> fmt::Result {
        for number in self.0 {
            write!(f, " {number:x}")?;
        }
        Ok(())
    }
}

// Each number that is not the wanted one, by its name. The names stand in groups, one after another. A number that did not come is 0,
// and one behind the last name has none.
#[derive(Clone, Copy)]
pub struct Differences<'a> {
    pub names: &'a [&'a [&'a str]],
    pub wanted: &'a [u64],
    pub got: &'a [u64],
}

impl Display for Differences<'_> {
    fn fmt<W: fmt::Write>(&self, f: &mut fmt::Formatter<W>) -> fmt::Result {
        let mut names = self.names.iter().copied().flatten();
        let got = self.got.iter().copied().chain(iter::repeat(0));
        for (wanted, got) in self.wanted.iter().copied().zip(got) {
            let name = names.next();
            if wanted != got {
                if let Some(name) = name {
                    write!(f, " {name}")?;
                }
                write!(f, " 0x{got:x} (wanted 0x{wanted:x})")?;
            }
        }
        Ok(())
    }
}

impl Counts {
    fn passed(&mut self)
        ensures { (self.new.cases ≡ one_more_of self.old.cases) × (self.new.failed ≡ self.old.failed) }
    {
        self.cases = self.cases.saturating_add(1);
    }

    fn failed(&mut self)
        ensures { (self.new.cases ≡ one_more_of self.old.cases) × (self.new.failed ≡ one_more_of self.old.failed) }
    {
        self.passed();
        self.failed = self.failed.saturating_add(1);
    }
}

// Where cases are told of, and the counts so far. A line that cannot be printed is lost, and counts all the same.
#[derive(Drop)]
pub struct Report<'a, R: Print> {
    pub rt: &'a R,
    pub counts: Counts,
}

impl<'a, R: Print> Report<'a, R> {
    pub fn new(rt: &'a R) -> Report<'a, R>
        ensures { (result.counts.cases ≡ 0) × (result.counts.failed ≡ 0) }
    {
        Report {
            rt,
            counts: Counts::default(),
        }
    }

    // Bytes of a file, as they are.
    fn print(&self, bytes: &[u8]) {
        let _ = self.rt.write_all(bytes);
    }

    // A case, as its label, which may be empty, and its text, behind a word on how it went.
    fn case(&self, went: &[u8], label: &[u8], text: &[u8]) {
        self.print(went);
        self.print(label);
        self.print(text);
    }

    // A heading or an empty line: printed as it is, and no case.
    pub fn heading(&mut self, line: &[u8])
        ensures { self.new.counts ≡ self.old.counts }
    {
        self.print(line);
        self.print(b"\n");
    }

    // A line or a file that cannot be run: `what` says which, and `why` what is wrong with it.
    pub fn broken(&mut self, what: &[u8], why: impl Display + Drop)
        ensures cases { self.new.counts.cases ≡ one_more_of self.old.counts.cases }
        ensures failed { self.new.counts.failed ≡ one_more_of self.old.counts.failed }
    {
        self.print(b"FAILED ");
        self.print(what);
        let _ = println!(self.rt; ": {why}");
        self.counts.failed();
    }

    // A case that was run, whether what came of it is right, and what is to be printed of it where it is not.
    fn told(&mut self, label: &[u8], text: &[u8], right: bool, got: impl Display + Drop)
        ensures cases { self.new.counts.cases ≡ one_more_of self.old.counts.cases }
        ensures passed { right ≡ true → self.new.counts.failed ≡ self.old.counts.failed }
        ensures failed { right ≡ false → self.new.counts.failed ≡ one_more_of self.old.counts.failed }
    {
        if right {
            self.case(b"ok ", label, text);
            self.print(b"\n");
            self.counts.passed();
        } else {
            self.case(b"FAILED ", label, text);
            let _ = println!(self.rt; ": got{got}");
            self.counts.failed();
        }
    }

    // A case that was run: it passed exactly if the numbers that came out are the wanted ones. Printed are the given numbers as the
    // file has them, and the text.
    pub fn judged(&mut self, line: &Line, wanted: &[u64], got: &[u64])
        ensures cases { self.new.counts.cases ≡ one_more_of self.old.counts.cases }
        ensures passed { wanted.now ≡ got.now → self.new.counts.failed ≡ self.old.counts.failed }
        ensures failed { (wanted.now ≢ got.now) → self.new.counts.failed ≡ one_more_of self.old.counts.failed }
    {
        self.told(line.label, line.text, wanted == got, Listed(got));
    }

    // A case of many numbers that was run, as `judged`; printed are its text and, by name, the numbers that are not the wanted ones.
    pub fn compared(&mut self, line: &Line, names: &[&[&str]], wanted: &[u64], got: &[u64])
        ensures cases { self.new.counts.cases ≡ one_more_of self.old.counts.cases }
        ensures passed { wanted.now ≡ got.now → self.new.counts.failed ≡ self.old.counts.failed }
        ensures failed { (wanted.now ≢ got.now) → self.new.counts.failed ≡ one_more_of self.old.counts.failed }
    {
        let differences = Differences { names, wanted, got };
        self.told(b"", line.text, wanted == got, differences);
    }

    // The last line.
    pub fn total(&self) -> Counts
        ensures { result ≡ self.now.counts }
    {
        let Counts { cases, failed } = self.counts;
        let _ = println!(self.rt; "{cases} cases, {failed} failed");
        self.counts
    }
}
