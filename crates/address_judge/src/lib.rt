// What a leaf of the page map lets an access do: steps 5 to 8, which are rules 7.5 to 7.8 of docs/HART.md, in their order. Step 5,
// whether the leaf is a page's, is asked of crate `address_leaf`.
#![tactic(auto)]

ghost use Rattle.std.specs.Prelude.{◌≡◌};
ghost use Rattle.address_leaf.specs.Leaf.{leaf_of};
ghost use Rattle.address_judge.specs.Judge.{user_bit_of, off_read_only_of, own_page_of, readable, permits, accessed_dirty_of, decide_of, judge_of};

use address_leaf::{Leaf, has_right, read_only, shadow_page, valid_leaf};
use address_page::Regime;
use address_page::kinds::{is_fetch, is_shadow, writes};
use isa::{Fault, Kind, Mode};

// The usual grant, by a few bits of the leaf's word.
mod usual;

// Step 6. In M there are no pages.
fn user_bit(mode: Mode, sum: bool, fetch: bool, u: bool) -> bool
    ensures { result ≡ user_bit_of mode sum fetch u }
{
    match mode {
        Mode::User => u,
        Mode::Supervisor => !u || !fetch && sum,
        Mode::Machine => true,
    }
}

// Step 7: a shadow access stays off read-only pages.
fn off_read_only(shadow: bool, only: bool) -> bool
    ensures { result ≡ off_read_only_of shadow only }
{
    !shadow || !only
}

// Step 7: shadow pages are for shadow accesses and loads, and shadow accesses for shadow pages.
fn own_page(k: Kind, shadow: bool) -> bool
    ensures { result ≡ own_page_of k shadow }
{
    match k {
        Kind::Fetch | Kind::Store => !shadow,
        Kind::Load => true,
        Kind::Push | Kind::Pop | Kind::Swap => shadow,
    }
}

// Step 8, a load.
fn readable(mxr: bool, shadow: bool, l: Leaf) -> bool
    ensures { result ≡ readable mxr shadow l }
{
    l.r || l.x && mxr || shadow
}

// Step 8. Of a shadow access step 7 has asked all.
fn permits(k: Kind, read: bool, l: Leaf) -> bool
    ensures { result ≡ permits k read l }
{
    match k {
        Kind::Fetch => l.x,
        Kind::Load => read,
        Kind::Store => l.w,
        Kind::Push | Kind::Pop | Kind::Swap => true,
    }
}

// Step 8: A, and D where the access writes.
fn accessed_dirty(writes: bool, l: Leaf) -> bool
    ensures { result ≡ accessed_dirty_of writes l }
{
    l.a && (!writes || l.d)
}

// The tests of steps 5 to 8 in their order: the first that fails decides. Six bools, so that each rule is a test of its own, and their order is here alone.
fn decide(
    valid: bool,
    user: bool,
    off: bool,
    own: bool,
    permits: bool,
    stamped: bool,
) -> Result<(), Fault>
    ensures { result ≡ decide_of valid user off own permits stamped }
{
    if !(valid && user && off) {
        return Err(Fault::Page);
    }
    if !own {
        return Err(Fault::Access);
    }
    if !(permits && stamped) {
        return Err(Fault::Page);
    }
    Ok(())
}

// What a leaf says to an access.
#[tactic(auto, unfolding(crate::specs::Judge::judge_of))]
pub fn judge(g: Regime, k: Kind, l: Leaf) -> Result<(), Fault>
    ensures { result ≡ judge_of g k l }
{
    let shadow = shadow_page(g.sse, l);
    decide(
        valid_leaf(has_right(l), shadow, l),
        user_bit(g.mode, g.sum, is_fetch(k), l.u),
        off_read_only(is_shadow(k), read_only(l)),
        own_page(k, shadow),
        permits(k, readable(g.mxr, shadow, l), l),
        accessed_dirty(writes(k), l),
    )
}

// What the leaf of this word says to an access: the usual grant at once, anything else by the steps. In place where it is called: each step of the slow
// path makes a fetch, whose tests are then compiled with the kind known.
#[inline(always)]
#[tactic(auto, using(crate::proofs::Shortcut::usual_granted))]
pub fn judge_word(g: Regime, k: Kind, e: u64) -> Result<(), Fault>
    ensures { result ≡ judge_of g k (leaf_of e) }
{
    if usual::grants(g, k, e) {
        return Ok(());
    }
    judge(g, k, address_leaf::bits(e))
}
