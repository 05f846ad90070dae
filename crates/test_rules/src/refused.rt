// The refused cases: the refusal's number, then what may be refused, and one wanted number, 1 for refused.
// Refusal 2 is given the length of a memory, refusal 3 the words of a page map.
ghost use Rattle.std.specs.Prelude.{◌≤◌, OnSome, length};

use address_page::map;

pub fn run(given: &[u64]) -> Option<[u64; 1]>
    ensures { OnSome result (1 ≤ length given.now) }
{
    let refused = match given {
        [2, bytes] => memory::refused(*bytes),
        [3, map @ ..] => map::refused(map),
        _ => return None,
    };
    Some([u64::from(refused)])
}
