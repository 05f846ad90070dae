// The first line of a text, whose count tells where it ends: its hex pairs up to there, and its end.
ghost use Rattle.std.specs.Prelude.{◌≡◌, false, ◌&&◌, ◌%◌, ◌<◌, ◌≤◌, eqb, length, ℕ, MatchOption};
ghost use Rattle.intel_hex.specs.Digits.{hex_pairs, pairs_of, total};
ghost use Rattle.intel_hex.specs.Lines.{lines_of};
ghost use Rattle.intel_hex.specs.Line.{good};
ghost use Rattle.intel_hex.specs.Inner.{Framed, first_of, Ends, Begins};

use super::line::Line;
use super::pair::Table;

// Whether bytes are hex pairs that add up to 0 modulo 256. No byte is tested by itself: one that is no digit makes the sum too large
// (docs/SPEED.md).
fn is_checked(table: &Table, digits: &[u8]) -> bool
    requires { (length digits.now % 2 ≡ 0) × (length digits.now ≤ 520) }
    ensures { result ≡ hex_pairs digits.now && eqb (total (pairs_of digits.now) % 256) 0 }
{
    let mut sum = 0;
    let (pairs, _) = digits.as_chunks::<2>();
    for &[high, low] in pairs {
        sum += table.pair(high, low);
    }
    sum < 0x10_0000 && sum % 256 == 0
}

// What follows, if the line ends here.
pub fn end(text: &[u8]) -> Option<&[u8]>
    ensures { MatchOption result (0 < length (first_of (lines_of text.now))) (λ rest. Ends text.now rest.now) }
{
    match text {
        [] => Some(text),
        [b'\n', rest @ ..] => Some(rest),
        [b'\r', rest @ ..] => rest.strip_prefix(b"\n"),
        _ => None,
    }
}

// The first line, and what follows it; none where the first line is not good.
pub fn first<'a>(table: &'a Table, text: &'a [u8]) -> Option<(Line<'a>, &'a [u8])>
    requires { 0 < length text.now }
    ensures { MatchOption result ((len upper : ℕ) → good len upper (first_of (lines_of text.now)) ≡ false) (λ p. Begins text.now p.0.text.now p.1.now) }
{
    if text[0] != b':' || text.len() < 11 {
        return None;
    }
    let count = table.at(text, 1);
    if 255 < count {
        return None;
    }
    let stop = 11 + 2 * count as usize;
    if text.len() < stop {
        return None;
    }
    let rest = end(&text[stop..])?;
    if !is_checked(table, &text[1..stop]) {
        return None;
    }
    Some((
        Line {
            table,
            text: &text[..stop],
        },
        rest,
    ))
}

// The same where the first line is known to be good: nothing is tested.
pub fn next<'a>(table: &'a Table, text: &'a [u8]) -> (Line<'a>, &'a [u8])
    requires { (0 < length text.now) × Framed (first_of (lines_of text.now)) }
    ensures { Begins text.now result.0.text.now result.1.now }
{
    let stop = 11 + 2 * table.at(text, 1) as usize;
    let line = Line {
        table,
        text: &text[..stop],
    };
    (line, end(&text[stop..]).unwrap())
}
