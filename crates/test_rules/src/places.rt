// The place cases: an access, what the hart's mode and CSRs say about accesses, an address, the length of
// memory and a page map, and three wanted numbers, the place or the fault.
//
// The given numbers are: kind (0 fetch, 1 load, 2 store, 3 push, 4 pop, 5 swap), width in bytes, mode (0 U,
// 1 S, 3 M), MPRV, MPP, whether satp says Sv39, SUM, MXR, menvcfg.SSE, the PMM of senvcfg, menvcfg and
// mseccfg, the address, the length of memory, and the words of the map. The wanted ones are 0, the
// physical address and 0, or 1, the cause and tval.
ghost use Rattle.std.specs.Prelude.{◌≡◌, ◌<◌, ◌≤◌, ◌↔◌, IfSome, OnSome, IsNone, OnOk, length};
ghost use Rattle.test_rules.specs.Kinds.{case_kind_of};

use super::{flag, width};
use address::Virtual;
use address::control::Control;
use address_place::{Physical, steps};
use isa::{Exception, Kind, Mode, Width};
use std::alloc::Global;
use test_lines::case::CaseError;

// How many bytes memory has at most: as many as a translation takes.
const MEMORY: u64 = 1_048_576;

// What is given of a case.
#[derive(Clone, Copy)]
struct Access<'a> {
    kind: Kind,
    width: Width,
    control: Control,
    address: u64,
    len: u64,
    map: &'a [u64],
}

// The kind of access that a number stands for.
#[tactic(auto, unfolding(crate::specs::Kinds::case_kind_of))]
pub fn kind(n: u64) -> Kind
    ensures { result ≡ case_kind_of n }
{
    match n {
        0 => Kind::Fetch,
        1 => Kind::Load,
        2 => Kind::Store,
        3 => Kind::Push,
        4 => Kind::Pop,
        _ => Kind::Swap,
    }
}

// The same of a number that a case can have for a kind.
pub fn known_kind(n: u64) -> Option<Kind>
    ensures kind { IfSome result (λ kind. kind ≡ case_kind_of n) }
    ensures none { IsNone result ↔ (5 < n) }
{
    match n {
        0..=5 => Some(kind(n)),
        _ => None,
    }
}

fn mode(n: u64) -> Option<Mode> {
    match n {
        0 => Some(Mode::User),
        1 => Some(Mode::Supervisor),
        3 => Some(Mode::Machine),
        _ => None,
    }
}

// How many bits are masked, by a field's number: it can be 0, 2 or 3.
fn pmm(n: u64) -> Option<u8> {
    match n {
        0 => Some(0),
        2 => Some(2),
        3 => Some(3),
        _ => None,
    }
}

fn read(given: &[u64]) -> Option<Access<'_>>
    ensures { OnSome result (14 ≤ length given.now) }
{
    let [
        access,
        bytes,
        now,
        mprv,
        mpp,
        sv39,
        sum,
        mxr,
        sse,
        upmm,
        spmm,
        mpmm,
        address,
        len,
        map @ ..,
    ] = given
    else {
        return None;
    };
    let control = Control {
        mode: mode(*now)?,
        mprv: flag::of(*mprv)?,
        mpp: mode(*mpp)?,
        sv39: flag::of(*sv39)?,
        sum: flag::of(*sum)?,
        mxr: flag::of(*mxr)?,
        sse: flag::of(*sse)?,
        upmm: pmm(*upmm)?,
        spmm: pmm(*spmm)?,
        mpmm: pmm(*mpmm)?,
    };
    Some(Access {
        kind: known_kind(*access)?,
        width: width::of(*bytes)?,
        control,
        address: *address,
        len: *len,
        map,
    })
}

fn shown(p: Result<Physical, Exception>) -> [u64; 3] {
    match p {
        Ok(physical) => [0, physical.number(), 0],
        Err(Exception { cause, tval }) => [1, u64::from(cause), tval],
    }
}

pub fn run(alloc: Global, given: &[u64]) -> Result<[u64; 3], CaseError>
    ensures { OnOk result (14 ≤ length given.now) }
{
    let Access {
        kind,
        width,
        control,
        address,
        len,
        map,
    } = read(given).ok_or(CaseError::Given)?;
    if len > MEMORY {
        return Err(CaseError::Given);
    }
    let mem = vec![in alloc; 0u8; len as usize]?;
    let place = steps::translate(control, kind, width, Virtual(address), map, &mem);
    Ok(shown(place))
}
