// The line reader: takes apart one line of a file of cases,
//
//     given numbers = wanted numbers # text
//
// Numbers are hexadecimal, in lower case, of at most 64 bits, with blanks between them. A line that is
// not of this form is answered with an error, so that whoever runs the file can count it as failed.
ghost use Rattle.std.specs.Prelude.{◌+◌, ◌≤◌, IfOk, length};
ghost use Rattle.test_lines.specs.Most.{most};

use std::error::Error;
use std::{fmt, str};

// How many numbers a line has at most: those of a page map of 65 entries, one too many, and the case's own.
pub const MOST: usize = 192;

// What can be wrong with a line.
#[derive(Clone, Copy, Debug, PartialEq, Eq)]
pub enum LineError {
    Numbers,
    NoEquals,
    NoText,
}

impl fmt::Display for LineError {
    fn fmt<W: fmt::Write>(&self, f: &mut fmt::Formatter<W>) -> fmt::Result {
        f.write_str(match self {
            LineError::Numbers => {
                "a number has more than 64 bits, or there are more numbers than 192"
            }
            LineError::NoEquals => "a bad character, or no '=', after the given numbers",
            LineError::NoText => "a bad character, or no '#', after the wanted numbers",
        })
    }
}

impl Error for LineError {}

// The label is what stands before '=': the given numbers as the file has them. Label and text are bytes, since those of a file may
// be any, and are printed as they are.
#[derive(Clone, Copy)]
pub struct Line<'a> {
    pub label: &'a [u8],
    pub given: &'a [u64],
    pub wanted: &'a [u64],
    pub text: &'a [u8],
}

// The digits and blanks that a line starts with, and what follows them.
fn split_digits(line: &[u8]) -> (&[u8], &[u8])
    ensures { length result.0.now + length result.1.now ≤ length line.now }
{
    let other = line
        .iter()
        .position(|byte| !matches!(byte, b'0'..=b'9' | b'a'..=b'f' | b' '));
    match other {
        Some(other) => line.split_at(other),
        None => (line, &[]),
    }
}

// Puts the numbers of digits and blanks into a room that has so many already, and says how many it has then.
fn numbers(digits: &[u8], room: &mut [u64; MOST], had: usize) -> Result<usize, LineError>
    requires { had ≤ most }
    ensures { IfOk result (λ count. (had ≤ count) × (count ≤ most)) }
{
    let digits = str::from_utf8(digits).map_err(|_| LineError::Numbers)?;
    let mut count = had;
    for word in digits.split_ascii_whitespace() {
        let place = room.get_mut(count).ok_or(LineError::Numbers)?;
        *place = u64::from_str_radix(word, 16).map_err(|_| LineError::Numbers)?;
        count += 1;
    }
    Ok(count)
}

// Reads a line. Its numbers lie in this room afterwards, the given ones first.
pub fn read<'a>(line: &'a [u8], room: &'a mut [u64; MOST]) -> Result<Line<'a>, LineError>
    ensures numbers { IfOk result (λ read. length read.given.now + length read.wanted.now ≤ most) }
    ensures label { IfOk result (λ read. length read.label.now ≤ length line.now) }
    ensures text { IfOk result (λ read. length read.text.now ≤ length line.now) }
{
    let (label, rest) = split_digits(line);
    let given = numbers(label, room, 0)?;
    let rest = rest.strip_prefix(b"=").ok_or(LineError::NoEquals)?;
    let (digits, rest) = split_digits(rest);
    let count = numbers(digits, room, given)?;
    let text = rest.strip_prefix(b"#").ok_or(LineError::NoText)?;
    let (given, wanted) = room[0..count].split_at(given);
    Ok(Line {
        label,
        given,
        wanted,
        // One blank after '#' is not of the text.
        text: text.strip_prefix(b" ").unwrap_or(text),
    })
}
