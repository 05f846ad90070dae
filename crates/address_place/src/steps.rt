// The nine steps in their order: from a virtual address to a place in memory, or to a cause and its tval.
ghost use Rattle.std.specs.Prelude.{false, ◌≡◌, ◌^◌, ◌≤◌, length};
ghost use Rattle.isa.specs.declared.Width.TheVariants.{Word};
ghost use Rattle.isa.specs.declared.Kind.TheVariants.{Fetch};
ghost use Rattle.address_page.specs.Kinds.{is_fetch_of, is_shadow_of};
ghost use Rattle.address_page.specs.Map.{lookup_of};
ghost use Rattle.address.specs.Control.{flat_of};
ghost use Rattle.word.specs.Choice.{pick};
ghost use Rattle.address_place.specs.Place.{within_of, inside_of, canonical_of, page_number, physical_of, paged_place_of, plain_place_of};
ghost use Rattle.address_place.specs.Place.{reached_of, place_of, flat_place_of};

use super::{BASE, Physical};
use address::control::Control;
use address::{Virtual, align, cause, mask};
use address_page::{Regime, kinds, map};
use isa::{Exception, Fault, Kind, Mode, Width, size};

// Step 9's test: all n bytes from p on lie in memory of this length.
#[tactic(auto, unfolding(crate::specs::Place::within_of))]
fn within(len: u64, p: u64, n: u64) -> bool
    requires { (len ≤ 2 ^ 20) × (n ≤ 8) }
    ensures { result ≡ within_of len p n }
{
    BASE <= p && p <= BASE + len && p + n <= BASE + len
}

// Step 9.
#[tactic(auto, unfolding(crate::specs::Place::inside_of))]
fn inside(k: Kind, w: Width, len: u64, p: Physical, t: Virtual) -> Result<Physical, Exception>
    requires { len ≤ 2 ^ 20 }
    ensures { result ≡ inside_of k w len p.0 t.0 }
{
    if within(len, p.0, size::bytes(w)) {
        return Ok(p);
    }
    Err(cause::fault(Fault::Access, k, t))
}

// Step 5: bits 63:39 equal bit 38.
fn canonical(t: u64) -> bool
    ensures { result ≡ canonical_of t }
{
    t / 0x80_0000_0000 == t / 0x40_0000_0000 % 2 * 0x1ff_ffff
}

// Step 5: what the map has for the address's page; for one that is not canonical, nothing.
fn found(t: Virtual, map: &[u64]) -> Option<u64>
    ensures { result ≡ pick (canonical_of t.0) (lookup_of map.now (page_number t.0)) None }
{
    if canonical(t.0) {
        return map::lookup(map, t.0 / 4096 % 0x800_0000);
    }
    None
}

// Where the leaf of this word leads.
fn physical(e: u64, t: Virtual) -> Physical
    ensures { result.0 ≡ physical_of e t.0 }
{
    Physical(e / 1024 % 0x1000_0000_0000 * 4096 + t.0 % 4096)
}

// Steps 5 to 9, under Sv39.
#[inline(always)]
#[tactic(auto, using(crate::proofs::Entry::paged_through), unfolding(crate::specs::Place::through_of, crate::specs::Place::settle_of))]
fn paged(
    g: Regime,
    k: Kind,
    w: Width,
    t: Virtual,
    map: &[u64],
    len: u64,
) -> Result<Physical, Exception>
    requires { len ≤ 2 ^ 20 }
    ensures { result ≡ paged_place_of g k w t.0 map.now len }
{
    let Some(e) = found(t, map) else {
        return Err(cause::fault(Fault::Page, k, t));
    };
    match address_judge::judge_word(g, k, e) {
        Ok(()) => inside(k, w, len, physical(e, t), t),
        Err(f) => Err(cause::fault(f, k, t)),
    }
}

// Steps 4 and 9, in M or Bare, where the address is the physical one.
#[tactic(auto, unfolding(crate::specs::Place::plain_place_of))]
fn plain(k: Kind, w: Width, t: Virtual, len: u64) -> Result<Physical, Exception>
    requires { len ≤ 2 ^ 20 }
    ensures { result ≡ plain_place_of k w t.0 len }
{
    if kinds::is_shadow(k) {
        return Err(Exception {
            // step 4's own number (docs/HART.md, 7.4), whatever the kind
            cause: 7,
            tval: t.0,
        });
    }
    inside(k, w, len, Physical(t.0), t)
}

// Steps 3 to 9, with the effective mode and the transformed address. In place where it is called, once for a fetch and once for any access: measured
// (docs/DECISIONS.md).
#[inline(always)]
#[tactic(auto, unfolding(crate::specs::Place::reached_of))]
fn reached(
    c: Control,
    m: Mode,
    k: Kind,
    w: Width,
    t: Virtual,
    map: &[u64],
    mem: &[u8],
) -> Result<Physical, Exception>
    requires { length mem.now ≤ 2 ^ 20 }
    ensures { result ≡ reached_of c m k w t.0 map.now (length mem.now) }
{
    if !align::aligned(w, t) {
        return Err(cause::fault(Fault::Misaligned, k, t));
    }
    if c.paged(m) {
        return paged(c.regime(m), k, w, t, map, mem.len() as u64);
    }
    plain(k, w, t, mem.len() as u64)
}

// The nine steps for a fetch, which is not masked and always has the current mode: a step by the slow path makes one, and so does a window.
#[tactic(auto, unfolding(crate::specs::Place::place_of, address::specs::Control::effective_mode_of, address::specs::Mask::transformed_of))]
pub fn fetch(c: Control, a: Virtual, map: &[u64], mem: &[u8]) -> Result<Physical, Exception>
    requires { length mem.now ≤ 2 ^ 20 }
    ensures { result ≡ place_of c Fetch Word a.0 map.now (length mem.now) }
{
    reached(c, c.mode, Kind::Fetch, Width::Word, a, map, mem)
}

// The only ways from a Virtual to a Physical, in Bare and in M too, are this and `fetch`, and the quick ones below, which give the
// same places.
#[tactic(auto, unfolding(crate::specs::Place::place_of))]
pub fn translate(
    c: Control,
    k: Kind,
    w: Width,
    a: Virtual,
    map: &[u64],
    mem: &[u8],
) -> Result<Physical, Exception>
    requires { length mem.now ≤ 2 ^ 20 }
    ensures { result ≡ place_of c k w a.0 map.now (length mem.now) }
{
    let m = c.effective(k);
    reached(c, m, k, w, mask::transform(c, m, k, a), map, mem)
}

// Steps 3 and 9 of an access that is neither masked nor translated.
#[tactic(auto, unfolding(crate::specs::Place::flat_place_of))]
pub fn plainly(k: Kind, w: Width, a: Virtual, mem: &[u8]) -> Result<Physical, Exception>
    requires { length mem.now ≤ 2 ^ 20 }
    ensures { result ≡ flat_place_of k w a.0 (length mem.now) }
{
    if align::aligned(w, a) {
        return inside(k, w, mem.len() as u64, Physical(a.0), a);
    }
    Err(cause::fault(Fault::Misaligned, k, a))
}

// The same place as `translate` gives a load or a store; `flat` is known beforehand.
pub fn quick_data(
    flat: bool,
    c: Control,
    k: Kind,
    w: Width,
    a: Virtual,
    map: &[u64],
    mem: &[u8],
) -> Result<Physical, Exception>
    requires { (length mem.now ≤ 2 ^ 20) × (flat ≡ flat_of c) × (is_shadow_of k ≡ false) × (is_fetch_of k ≡ false) }
    ensures { result ≡ place_of c k w a.0 map.now (length mem.now) }
{
    if flat {
        return plainly(k, w, a, mem);
    }
    translate(c, k, w, a, map, mem)
}
