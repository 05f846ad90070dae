// What is remembered of pages while the mode, the CSRs and the map stay as they are: where a page of a load, a store, a push or a pop-check lies in
// memory. What is remembered includes the judgement: a page is remembered only where such an access has a place, and its frame lies in memory whole.
//
// The first 64 pages are for the first kind of access, the next 64 for the next, and so on, each by its number in the map. Nothing is remembered of
// fetches and swaps, whose pages stay empty: so a kind is its own place.
#![tactic(auto)]

ghost use Rattle.std.specs.Prelude.{◌≡◌, IfSome, ◌+◌, ◌/◌, ◌^◌, ◌<◌, ◌≤◌, length};
ghost use Rattle.address_place.specs.Place.{base, place_of};
ghost use Rattle.run_pages.specs.Pages.{kind_at, Remembers};

use address::Virtual;
use address::control::Control;
use address_place::steps;
use isa::{Kind, Width, size};

// Of 6 kinds of accesses, 64 pages each.
pub const COUNT: usize = 384;

// A page's first address, and the index of its first byte.
#[derive(Clone, Copy)]
pub struct Page {
    pub first: u64,
    pub at: usize,
}

// Nothing is remembered: no page begins at such an address, nor is one near it as the test in `seek` asks. Its bytes are alike, so that the pages are
// cleared by one fill. Measured: an Option in its place makes a load or a store half as long again (docs/SPEED.md).
pub const EMPTY: Page = Page {
    first: 0x0808_0808_0808_0808,
    at: 0x0808_0808_0808_0808,
};

// The page of address a, remembered at j, if an access to its first address has a place and its frame lies in memory whole.
fn remember(ps: &mut [Page; COUNT], j: usize, k: Kind, a: u64, c: Control, mem: &[u8], map: &[u64])
    requires { (length mem.now ≤ 2 ^ 20) × (j < 384) × (kind_at (j / 64) ≡ k)
        × Remembers ps.old c map.now (length mem.now) }
    ensures { Remembers ps.new c map.now (length mem.now) }
{
    let low = a - a % 4096;
    match steps::translate(c, k, Width::Double, Virtual(low), map, mem) {
        Ok(q) => {
            let at = q.index();
            if at + 4096 <= mem.len() {
                ps[j] = Page { first: low, at };
            }
        }
        Err(_) => {}
    }
}

// The place by the nine steps; the page is remembered for the next access.
fn find(
    ps: &mut [Page; COUNT],
    j: usize,
    k: Kind,
    n: Width,
    a: u64,
    c: Control,
    mem: &[u8],
    map: &[u64],
) -> Option<usize>
    requires { (length mem.now ≤ 2 ^ 20) × (j < 384) × (kind_at (j / 64) ≡ k)
        × Remembers ps.old c map.now (length mem.now) }
    ensures place { IfSome result (λ at. place_of c k n a map.now (length mem.now) ≡ Ok (record { 0 = base + at })) }
    ensures pages { Remembers ps.new c map.now (length mem.now) }
{
    remember(ps, j, k, a, c, mem, map);
    match steps::translate(c, k, n, Virtual(a), map, mem) {
        Ok(q) => Some(q.index()),
        Err(_) => None,
    }
}

// The place of an access of kind k. One test asks for the page and for alignment.
pub fn seek(
    ps: &mut [Page; COUNT],
    k: Kind,
    n: Width,
    a: u64,
    c: Control,
    mem: &[u8],
    map: &[u64],
) -> Option<usize>
    requires { (length mem.now ≤ 2 ^ 20) × Remembers ps.old c map.now (length mem.now) }
    ensures place { IfSome result (λ at. place_of c k n a map.now (length mem.now) ≡ Ok (record { 0 = base + at })) }
    ensures pages { Remembers ps.new c map.now (length mem.now) }
{
    let j = k as usize * 64 + (a / 4096 % 64) as usize;
    let page = &ps[j];
    if page.first == a - a % 4096 + a % size::bytes(n) {
        return Some(page.at + (a % 4096) as usize);
    }
    find(ps, j, k, n, a, c, mem, map)
}
