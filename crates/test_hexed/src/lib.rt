// The HEX cases: a text, loaded into a memory that is filled with one byte.
//
// The given numbers are how many bytes memory has, how many the text has, and the text's bytes, eight to a number, the first lowest. The
// wanted ones are the answer (refusal, line, 1 where a start address was given, the start address) and, for each byte of memory that is
// another afterwards, 256 times its place and the byte, in rising order.
#![tactic(auto)]

ghost use Rattle.std.specs.Prelude.{◌≤◌, IfOk, vec_len};
ghost use Rattle.test_lines.specs.Most.{most};

use std::alloc::{AllocError, Global};
use test_lines::case::CaseError;
use test_lines::line::MOST;

// What memory is filled with.
const FILLING: u8 = 0xee;

// How many bytes a memory can have, a page more than a load accepts, and a text.
const MEMORY: usize = 1_052_672;

const TEXT: usize = 1440;

// The number at a place of a line; one that the line does not have is 0.
fn number(given: &[u64], at: usize) -> u64 {
    given.get(at).copied().unwrap_or(0)
}

// A number of bytes that may be so many.
fn counted(bytes: u64, most: usize) -> Result<usize, CaseError>
    ensures { IfOk result (λ count. count ≤ most) }
{
    match usize::try_from(bytes) {
        Ok(count) if count <= most => Ok(count),
        _ => Err(CaseError::Given),
    }
}

// A text of so many bytes, out of the numbers of a line; a byte that no number has is 0.
fn unpacked(alloc: Global, packed: &[u64], count: usize) -> Result<Vec<u8>, AllocError> {
    let mut text = packed
        .iter()
        .flat_map(|eight| eight.to_le_bytes())
        .collect::<Vec<u8>>(alloc)?;
    text.resize(count, 0)?;
    Ok(text)
}

// What comes of a case.
pub fn run(alloc: Global, given: &[u64]) -> Result<Vec<u64>, CaseError>
    ensures { IfOk result (λ numbers. vec_len numbers ≤ most) }
{
    let packed = given.get(2..).unwrap_or(&[]);
    let text = unpacked(alloc, packed, counted(number(given, 1), TEXT)?)?;
    let mut mem = vec![in alloc; FILLING; counted(number(given, 0), MEMORY)?]?;
    let answer = match intel_hex::load(&text, &mut mem) {
        Ok(Some(start)) => [0, 0, 1, start],
        Ok(None) => [0; 4],
        Err(refusal) => [refusal.number(), refusal.line(), 0, 0],
    };
    let mut numbers = answer.to_vec(alloc)?;
    let changed = mem.iter().enumerate().filter(|(_, byte)| **byte != FILLING);
    numbers.extend(changed.map(|(place, byte)| (place as u64) << 8 | u64::from(*byte)))?;
    if numbers.len() > MOST {
        return Err(CaseError::Given);
    }
    Ok(numbers)
}
