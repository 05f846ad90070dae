// The bytes cases: a store, then a load, in a memory of at most 64 bytes.
//
// The given numbers are the store's width, place and value, the load's width, place and 1 where the sign
// is extended, and the bytes of the memory; a width is in bytes, 0 where there is no store or no load. The
// wanted ones are the loaded number, 0 where there is no load, and every byte of the memory afterwards.
ghost use Rattle.std.specs.Prelude.{◌≡◌, ◌≤◌, ◌+◌, length, IfSome, IfOk, vec_len};
ghost use Rattle.isa.specs.Size.{size_of};

use super::{flag, width};
use isa::{Width, size};
use std::alloc::Global;
use std::iter;
use test_lines::case::CaseError;

// How many bytes there are at most.
const ROOM: usize = 64;

// The width and the place of an access that fits into a memory of this length.
fn fitting(bytes: u64, at: u64, len: usize) -> Option<(Width, usize)>
    ensures { IfSome result (λ access. access.1 + size_of access.0 ≤ len) }
{
    let width = width::of(bytes)?;
    let last = (len as u64).checked_sub(size::bytes(width))?;
    if at > last {
        return None;
    }
    Some((width, at as usize))
}

fn stored(mem: &mut [u8], bytes: u64, at: u64, value: u64) -> Option<()>
    ensures { length mem.new ≡ length mem.old }
{
    if bytes != 0 {
        let (width, place) = fitting(bytes, at, mem.len())?;
        memory::store(mem, place, width, value);
    }
    Some(())
}

fn loaded(mem: &[u8], bytes: u64, at: u64, signed: u64) -> Option<u64> {
    let signed = flag::of(signed)?;
    if bytes == 0 {
        return Some(0);
    }
    let (width, place) = fitting(bytes, at, mem.len())?;
    Some(memory::extend(width, signed, memory::load(mem, place, width)))
}

pub fn run(alloc: Global, given: &[u64]) -> Result<Vec<u64>, CaseError>
    ensures { IfOk result (λ numbers. vec_len numbers ≤ 65) }
{
    let [
        stored_bytes,
        stored_at,
        value,
        loaded_bytes,
        loaded_at,
        signed,
        bytes @ ..,
    ] = given
    else {
        return Err(CaseError::Given);
    };
    if bytes.len() > ROOM {
        return Err(CaseError::Given);
    }
    let mut mem: Vec<u8> = bytes
        .iter()
        .map(|byte| u8::try_from(*byte).map_err(|_| CaseError::Given))
        .try_collect(alloc)?;
    stored(&mut mem, *stored_bytes, *stored_at, *value).ok_or(CaseError::Given)?;
    let number = loaded(&mem, *loaded_bytes, *loaded_at, *signed).ok_or(CaseError::Given)?;
    let bytes = mem.iter().map(|byte| u64::from(*byte));
    Ok(iter::once(number).chain(bytes).collect(alloc)?)
}
