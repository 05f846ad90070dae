// The quick way's two ends: the fetch, and the instruction of a word by its major opcode.
ghost use Rattle.std.specs.Prelude.{List, ◌≡◌, ℕ, ◌+◌, ◌-◌, ◌^◌, ◌≤◌, length};
ghost use Rattle.address.specs.Control.{flat_of};
ghost use Rattle.address.specs.declared.control.Control.{Control};
ghost use Rattle.decode.specs.Decode.{decode_of};
ghost use Rattle.address_place.specs.Window.{Shows};
ghost use Rattle.step_meaning.specs.Instruction.{execute_of};
ghost use Rattle.step_meaning.specs.Plan.{fetched_of};
ghost use Rattle.step_meaning.specs.declared.Source.TheVariants.{Fetch};
ghost use Rattle.csr_words.specs.Words.{◌of◌, SSP};
ghost use Rattle.run_done.specs.Moves.{Done};
ghost use Rattle.run_quick.specs.Quick.{Sees};

use super::compute;
use address_place::window::Window;
use csr_words::COUNT;
use run_moves::data;
use step_meaning::Context;
use word::sum;

// The word at pc by its distance from the window's first address. Outside the window, or at an address that is not aligned, none is seen: the
// slow path fetches there.
pub fn fetch(v: Window, pc: u64, mem: &[u8]) -> Option<u32>
    requires { (length mem.now ≤ 2 ^ 20) × (v.at + v.span ≤ length mem.now - 3) }
    ensures { (c : Control) (map : List ℕ) → Shows v c map (length mem.now)
        → Sees result (fetched_of Fetch c pc mem.now map) }
{
    let d = sum::difference(pc, v.low);
    if pc % 4 == 0 && d < v.span {
        return Some(memory::word(mem, (v.at + d) as usize));
    }
    None
}

// The instruction that a word names. FENCE, the swap, and what no row has are left to the slow path.
pub fn word(
    w: u32,
    x: &mut [u64; 32],
    rest: &mut [u64; COUNT],
    pc: u64,
    k: Context,
    mem: &mut [u8],
    map: &[u64],
) -> Option<u64>
    requires { (length mem.old ≤ 2 ^ 20) × (k.flat ≡ flat_of k.setting.control) }
    ensures { Done result (execute_of (decode_of w) w x.old pc (SSP of rest.old) k.setting mem.old
        map.now) x.old rest.old mem.old x.new rest.new mem.new }
{
    match w % 128 {
        0b0110111 => compute::lui(w, x, pc),
        0b0010111 => compute::auipc(w, x, pc),
        0b1101111 => compute::jal(w, x, pc),
        0b1100111 => compute::jalr(w, x, pc, k.setting.pad),
        0b1100011 => compute::branch(w, x, pc),
        0b0000011 => data::load(w, x, pc, k, mem, map),
        0b0100011 => data::store(w, x, pc, k, mem, map),
        0b0010011 => compute::op_imm(w, x, pc),
        0b0011011 => compute::op_imm_32(w, x, pc),
        0b0110011 => compute::op(w, x, pc),
        0b0111011 => compute::op_32(w, x, pc),
        0b1110011 => data::shadow(w, x, rest, pc, k, mem, map),
        _ => None,
    }
}
