// The decode cases: one given number, a word, and nine wanted ones: the eight of the instruction that it is read as, and the word that
// writing these gives, 0 where they are refused; vectors/decode.py writes the same numbers.
#![tactic(auto)]

ghost use Rattle.std.specs.Prelude.{◌≡◌, ◌<◌, ◌^◌, ◌↔◌, IsSome, length, slice_index};

use decode::decode;
use decode_numbers::of_instruction;
use decode_writer::write_numbers;

// What comes of a case; nothing where the given numbers are none of such a case.
pub fn run(given: &[u64]) -> Option<[u64; 9]>
    ensures { IsSome result ↔ ((length given.now ≡ 1) × (slice_index given.now 0 < 2 ^ 32)) }
{
    let [word] = given else {
        return None;
    };
    let numbers = of_instruction(decode(u32::try_from(*word).ok()?));
    let [family, operation, rd, rs1, rs2, immediate, first, second] = <[u64; 8]>::from(numbers);
    let written = write_numbers(numbers).map_or(0, u64::from);
    Some([
        family, operation, rd, rs1, rs2, immediate, first, second, written,
    ])
}
