// The content of a memory in a line of a file of cases: pairs of an offset, which is a multiple of 8, and the
// eight bytes there as a number; every other byte is 0. And the entries of a page map that are made, of rising pages with
// rising frames, so that a line has room for 65 of them.
ghost use Rattle.std.specs.Prelude.{◌≡◌, ◌+◌, length, IfOk, vec_len};

use isa::Width;
use std::alloc::{AllocError, Global};

// What the frame number counts in a leaf.
const FRAME: u64 = 1024;

// Puts each pair into memory, where each is one that can be.
pub fn fill(mem: &mut [u8], pairs: &[u64]) -> Option<()>
    ensures { length mem.new ≡ length mem.old }
{
    let (pairs, rest) = pairs.as_chunks::<2>();
    if !rest.is_empty() {
        return None;
    }
    for [at, eight] in pairs {
        let last = mem.len().checked_sub(8)? as u64;
        if at % 8 != 0 || *at > last {
            return None;
        }
        memory::store(mem, *at as usize, Width::Double, *eight);
    }
    Some(())
}

// So many entries of a map, a page and a leaf each: the first has this page and this leaf. A `for`: with `flat_map` the length stayed unproved.
pub fn rising(alloc: Global, entries: u64, page: u64, leaf: u64) -> Result<Vec<u64>, AllocError>
    ensures { IfOk result (λ map. vec_len map ≡ entries + entries) }
{
    let mut map = Vec::new(alloc);
    for i in 0..entries {
        let rise = i.wrapping_mul(FRAME);
        map.extend_from_slice(&[page.wrapping_add(i), leaf.wrapping_add(rise)])?;
    }
    Ok(map)
}
