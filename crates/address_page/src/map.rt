// The page map: two words a page, its number and then its leaf. Lookup of a number, and refusal 3.
ghost use Rattle.std.specs.Prelude.{◌≡◌};
ghost use Rattle.address_page.specs.Map.{lookup_of, map_refused_of};

// The leaf word of the first entry that has this page number. A turn of the loop reads two entries: with one, it is so short that its speed hangs on
// where the compiler puts it (docs/SPEED.md).
pub fn lookup(map: &[u64], page: u64) -> Option<u64>
    ensures { result ≡ lookup_of map.now page }
{
    let (pairs, rest) = map.as_chunks::<4>();
    for [first, first_leaf, second, second_leaf] in pairs {
        if *first == page {
            return Some(*first_leaf);
        }
        if *second == page {
            return Some(*second_leaf);
        }
    }
    match rest {
        [number, leaf, ..] if *number == page => Some(*leaf),
        _ => None,
    }
}

// Refusal 3. `low` is the least number that the next page may have.
pub fn refused(map: &[u64]) -> bool
    ensures { result ≡ map_refused_of map.now }
{
    if map.len() % 2 != 0 || 128 < map.len() {
        return true;
    }
    let mut low = 0;
    let (entries, _) = map.as_chunks::<2>();
    for [page, _] in entries {
        if *page < low || 0x800_0000 <= *page {
            return true;
        }
        low = *page + 1;
    }
    false
}
