// What fetches from one stretch of addresses have in common: in M or Bare all of memory, under Sv39 a page. While the setting and the map stay as
// they are, the word at each of these addresses is found by its distance from the first of them.
ghost use Rattle.std.specs.Prelude.{true, false, List, length, ◌≡◌, ℕ, ◌^◌, ◌≤◌};
ghost use Rattle.address.specs.declared.control.Control as declared;
ghost use Rattle.address.specs.Control.{bare_of};
ghost use Rattle.address_place.specs.Window.{covers_of, Shows};

use super::{BASE, steps};
use address::Virtual;
use address::control::Control;
use word::sum;

// The addresses from `low` on, `span` of them. The first of them stands at index `at` of memory.
#[derive(Clone, Copy)]
pub struct Window {
    pub low: u64,
    pub span: u64,
    pub at: u64,
}

// No address. An empty window and no Option: that would be asked in every step.
fn closed() -> Window
    ensures { (c : declared.Control) (map : List ℕ) (len : ℕ) → Shows result c map len }
{
    Window {
        low: 0,
        span: 0,
        at: 0,
    }
}

pub fn covers(v: Window, a: u64) -> bool
    ensures { result ≡ covers_of v a }
{
    sum::difference(a, v.low) < v.span
}

// All of memory, at its physical addresses. A word that begins among the last three bytes would not lie in it whole.
fn whole(c: Control, len: u64) -> Window
    requires { (len ≤ 2 ^ 20) × (bare_of c ≡ true) }
    ensures { (map : List ℕ) → Shows result c map len }
{
    if len < 4 {
        return closed();
    }
    Window {
        low: BASE,
        span: len - 3,
        at: 0,
    }
}

// The page of address a, if a fetch from its first address has a place, and its frame lies in memory whole.
fn page(c: Control, a: u64, map: &[u64], mem: &[u8]) -> Window
    requires { (length mem.now ≤ 2 ^ 20) × (bare_of c ≡ false) }
    ensures { Shows result c map.now (length mem.now) }
{
    let low = a - a % 4096;
    let Ok(q) = steps::fetch(c, Virtual(low), map, mem) else {
        return closed();
    };
    let at = q.0 - BASE;
    if at + 4096 <= mem.len() as u64 {
        return Window {
            low,
            span: 4093,
            at,
        };
    }
    closed()
}

// The window that address a is in, or one that does not cover it.
pub fn around(c: Control, a: u64, map: &[u64], mem: &[u8]) -> Window
    requires { length mem.now ≤ 2 ^ 20 }
    ensures { Shows result c map.now (length mem.now) }
{
    if c.bare() {
        return whole(c, mem.len() as u64);
    }
    page(c, a, map, mem)
}
