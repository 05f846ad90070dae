// What a case of a public call is given besides the call: a hart, how long memory is, the page map, and the content of memory; and how
// memory is compared after the call.
//
// The given numbers are: the length of memory, the hart (52 numbers), the map's entries that are made (how many, the first page, the first
// leaf), how many words of the map follow, those words, and the pairs of memory's content (module `content`).
#![tactic(auto)]

ghost use Rattle.std.specs.Prelude.{◌≡◌, ◌<◌, ◌≤◌, IfOk, OnOk, IfSome, IsNone, get_or, length, vec_len};
ghost use Rattle.test_lines.specs.Most.{most};

use std::alloc::Global;
use test_lines::case::CaseError;

// The content of a memory, and the entries of a map that are made.
mod content;

// How many numbers a hart is, and where the word is among them that can be 0 or 1, elp.
const HART: usize = 52;

const ELP: usize = 34;

// How many entries of the map can be made, and how many words it can have besides.
const MADE: u64 = 66;

const LISTED: u64 = 28;

// How many bytes a memory can have: a page more than a call accepts.
const MEMORY: u64 = 1_052_672;

// What stands for the offset of a byte that is wrong, where none is.
const NOWHERE: u64 = 0xffff_ffff_ffff_ffff;

// The content is pairs, which nobody has looked at yet.
#[derive(Drop)]
pub struct Scene<'a> {
    pub hart: &'a [u64; HART],
    pub map: Vec<u64>,
    len: usize,
    content: &'a [u64],
    ghost map_fits: { vec_len map ≤ most },
}

// Where memory is not as it is to be, what is there and what is to be there.
#[derive(Clone, Copy, Debug, PartialEq, Eq)]
pub struct Difference {
    pub offset: u64,
    pub found: u64,
    pub wanted: u64,
}

impl<'a> Scene<'a> {
    pub fn read(alloc: Global, given: &'a [u64]) -> Result<Scene<'a>, CaseError>
        ensures { OnOk result (57 ≤ length given.now) }
    {
        let (len, given) = given.split_first().ok_or(CaseError::Given)?;
        let (hart, given) = given.split_first_chunk().ok_or(CaseError::Given)?;
        let [made, page, leaf, words, given @ ..] = given else {
            return Err(CaseError::Given);
        };
        if *len > MEMORY || hart[ELP] > 1 || *made > MADE || *words > LISTED {
            return Err(CaseError::Given);
        }
        let cut = given.split_at_checked(*words as usize);
        let (words, content) = cut.ok_or(CaseError::Given)?;
        let mut map = content::rising(alloc, *made, *page, *leaf)?;
        map.extend_from_slice(words)?;
        Ok(Scene {
            hart,
            map,
            len: *len as usize,
            content,
        })
    }

    // Memory before the call, with what is changed in it.
    pub fn memory(&self, alloc: Global, changed: &[u64]) -> Result<Vec<u8>, CaseError>
        ensures { IfOk result (λ mem. vec_len mem ≡ self.now.len) }
    {
        let mut mem = vec![in alloc; 0u8; self.len]?;
        content::fill(&mut mem, self.content).ok_or(CaseError::Given)?;
        content::fill(&mut mem, changed).ok_or(CaseError::Given)?;
        Ok(mem)
    }
}

// The first byte of memory that is not as it is to be.
pub fn first_difference(found: &[u8], wanted: &[u8]) -> Option<Difference>
    ensures { IfSome result (λ d. (d.offset < length found.now) × (d.found ≤ 255) × (d.wanted ≤ 255)) }
{
    let mut bytes = found.iter().zip(wanted).enumerate();
    let (offset, (found, wanted)) = bytes.find(|(_, (found, wanted))| found != wanted)?;
    Some(Difference {
        offset: offset as u64,
        found: u64::from(*found),
        wanted: u64::from(*wanted),
    })
}

// What is wrong in memory as two numbers, the wanted ones and those that came: nothing is to be wrong.
pub fn told(difference: Option<Difference>) -> ([u64; 2], [u64; 2])
    ensures right { IsNone difference → result.0 ≡ result.1 }
    ensures wrong { IfSome difference (λ d. get_or result.1 0 0 ≡ d.offset) }
{
    match difference {
        Some(d) => ([NOWHERE, d.wanted], [d.offset, d.found]),
        None => ([NOWHERE, 0], [NOWHERE, 0]),
    }
}
