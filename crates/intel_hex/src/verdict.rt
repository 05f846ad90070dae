// The first pass: goes over the lines up to the first bad one.
ghost use Rattle.std.specs.Prelude.{◌≡◌, None};
ghost use Rattle.intel_hex.specs.Lines.{lines_of};
ghost use Rattle.intel_hex.specs.Load.{last_start, first_bad_of};
ghost use Rattle.intel_hex.specs.Inner.{verdict_of};

use super::line::RecordType;
use super::pair::Table;
use super::{Refusal, scan};

// The start address of a text, or its first bad line, for memory of this length.
pub fn judge(table: &Table, text: &[u8], len: usize) -> Result<Option<u64>, Refusal>
    ensures { result ≡ verdict_of (first_bad_of len 0 1 (lines_of text.now)) (last_start None (lines_of text.now)) }
{
    let mut upper = 0;
    let mut start = None;
    // counted here: a line knows only where the rest begins, and the rest is asked for behind it
    let mut n = 1;
    let mut rest = text;
    while !rest.is_empty() {
        let Some((line, behind)) = scan::first(table, rest) else {
            return Err(Refusal::Line(n));
        };
        if !line.is_good(upper, len) {
            return Err(Refusal::Line(n));
        }
        upper = line.upper_after(upper);
        start = line.start_after(start);
        rest = behind;
        n += 1;
        if line.is(RecordType::End) {
            if !rest.is_empty() {
                return Err(Refusal::Line(n));
            }
            return Ok(start);
        }
    }
    Err(Refusal::Line(n))
}
