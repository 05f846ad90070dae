// The usual grant: most accesses are granted on a few bits of the leaf's word, and only for the others are steps 5 to 8 asked one by one.
// Each bit is taken from the word where it is asked for: that is what makes these tests quick.
ghost use Rattle.std.specs.Prelude.{◌≡◌};
ghost use Rattle.address_leaf.specs.Leaf.{leaf_of};
ghost use Rattle.address_judge.specs.Usual.{usual_leaf, usual_user, usual_fetch, usual_store, usual_shadow, usual_right, usual_of};

use address_page::Regime;
use isa::{Kind, Mode};

// Steps 5 and 8.
fn leaf(v: bool, clear: bool, a: bool) -> bool
    ensures { result ≡ usual_leaf v clear a }
{
    v && clear && a
}

// Step 6.
fn user(mode: Mode, u: bool) -> bool
    ensures { result ≡ usual_user mode u }
{
    match mode {
        Mode::User => u,
        Mode::Supervisor => !u,
        Mode::Machine => false,
    }
}

fn fetch(w: bool, x: bool) -> bool
    ensures { result ≡ usual_fetch w x }
{
    x && !w
}

fn store(r: bool, w: bool, d: bool) -> bool
    ensures { result ≡ usual_store r w d }
{
    w && r && d
}

fn shadow(sse: bool, r: bool, w: bool, x: bool, d: bool) -> bool
    ensures { result ≡ usual_shadow sse r w x d }
{
    sse && d && w && !r && !x
}

// Steps 5, 7 and 8.
fn right(sse: bool, k: Kind, e: u64) -> bool
    ensures { result ≡ usual_right sse k (leaf_of e) }
{
    match k {
        Kind::Fetch => fetch(e / 4 % 2 == 1, e / 8 % 2 == 1),
        Kind::Load => e / 2 % 2 == 1,
        Kind::Store => store(e / 2 % 2 == 1, e / 4 % 2 == 1, e / 128 % 2 == 1),
        Kind::Push | Kind::Pop | Kind::Swap => shadow(
            sse,
            e / 2 % 2 == 1,
            e / 4 % 2 == 1,
            e / 8 % 2 == 1,
            e / 128 % 2 == 1,
        ),
    }
}

#[tactic(auto, unfolding(crate::specs::Usual::usual_of))]
pub fn grants(g: Regime, k: Kind, e: u64) -> bool
    ensures { result ≡ usual_of g k (leaf_of e) }
{
    user(g.mode, e / 16 % 2 == 1)
        && leaf(e % 2 == 1, e / 0x40_0000_0000_0000 == 0, e / 64 % 2 == 1)
        && right(g.sse, k, e)
}
