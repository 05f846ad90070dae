// A leaf of the page map, and whether it is a page's at all: step 5, which is rule 7.5 of docs/HART.md. The word is taken apart
// once, into bools. How a leaf is found is the business of crate `address_page`, what it lets an access do that of crate `address_judge`.
#![tactic(auto)]

ghost use Rattle.std.specs.Prelude.{◌≡◌};
ghost use Rattle.address_leaf.specs.Leaf.{leaf_of, shadow_page_of, read_only, has_right_of, valid_leaf_of};

// An Sv39 leaf: its bits, and whether bits 63:54 are 0.
#[derive(Clone, Copy)]
pub struct Leaf {
    pub v: bool,
    pub r: bool,
    pub w: bool,
    pub x: bool,
    pub u: bool,
    pub a: bool,
    pub d: bool,
    pub clear: bool,
}

pub fn bits(e: u64) -> Leaf
    ensures { result ≡ leaf_of e }
{
    Leaf {
        v: e % 2 == 1,
        r: e / 2 % 2 == 1,
        w: e / 4 % 2 == 1,
        x: e / 8 % 2 == 1,
        u: e / 16 % 2 == 1,
        a: e / 64 % 2 == 1,
        d: e / 128 % 2 == 1,
        clear: e / 0x40_0000_0000_0000 == 0,
    }
}

// W alone, while menvcfg.SSE is 1.
pub fn shadow_page(sse: bool, l: Leaf) -> bool
    ensures { result ≡ shadow_page_of sse l }
{
    sse && l.w && !l.r && !l.x
}

// R alone.
pub fn read_only(l: Leaf) -> bool
    ensures { result ≡ read_only l }
{
    l.r && !l.w && !l.x
}

// R, W and X are not all 0.
pub fn has_right(l: Leaf) -> bool
    ensures { result ≡ has_right_of l }
{
    l.r || l.w || l.x
}

// Step 5. W without R is a shadow page's alone.
pub fn valid_leaf(right: bool, shadow: bool, l: Leaf) -> bool
    ensures { result ≡ valid_leaf_of right shadow l }
{
    l.v && right && l.clear && (!l.w || l.r || shadow)
}
