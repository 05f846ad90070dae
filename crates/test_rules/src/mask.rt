// The mask cases: three given numbers, how many bits are masked, whether Sv39 is in force and an address,
// and one wanted, the address as transformed.
ghost use Rattle.std.specs.Prelude.{◌≡◌, OnSome, length};

use address::mask;

pub fn run(given: &[u64]) -> Option<[u64; 1]>
    ensures { OnSome result (length given.now ≡ 3) }
{
    match given {
        [bits @ 0..=16, sv39 @ 0..=1, address] => {
            Some([mask::mask(*bits, *sv39 == 1, *address)])
        }
        _ => None,
    }
}
