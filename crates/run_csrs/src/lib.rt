// A quick way for the CSR instructions that a trap handler lives on: CSRRW, CSRRS and CSRRC on scratch, epc, cause and tval, of M and of S, done
// in place on a hart's registers and words. The slow path passes through three enums and six jumps, and a handler's few instructions are most of a
// trap's cost. Any other word is left undone and changes nothing: it takes the slow path, by `step_execute::plan`.
//
// Its own crate, since it is a second way to the same effects: the definitions are those of `step_meaning` and `csr_words`, and nothing here adds to them.
#![tactic(auto)]

ghost use Rattle.std.specs.Prelude.{Bool, List, ◌≡◌, ℕ, ◌<◌};
ghost use Rattle.word.specs.Choice.{pick};
ghost use Rattle.word.specs.Field.{bits};
ghost use Rattle.isa.specs.declared.CsrSource.TheVariants.{Register};
ghost use Rattle.decode.specs.Decode.{decode_of};
ghost use Rattle.isa.specs.Mode.{mode_of};
ghost use Rattle.step_effect.specs.Csrs.{csr_effect_of, writes_of, merged_of};
ghost use Rattle.step_effect.specs.Register.{reg_of, put_of};
ghost use Rattle.csr_setting.specs.declared.Setting.{Setting};
ghost use Rattle.csr_words.specs.Words.{◌of◌, ◌but◌≔◌, COUNT, MODE};
ghost use Rattle.step_meaning.specs.Instruction.{execute_of, next_of};
ghost use Rattle.run_csrs.specs.Handler.{Handles};
ghost use Rattle.run_csrs.specs.Named.{Finds, held_of};

use csr_words::{COUNT, MODE, MSCRATCH, SSCRATCH};
use isa::CsrOperation;
use step_effect::{csrs, register};
use word::field;

// Where the word of an address stands, if it is one of the eight and the mode reaches it. A number and not a `Csr`, which would cost a jump for
// each of what is asked of it. M's four are M's alone; S's are also M's. Any other number than 1 and 3 is U, so S is not tested as "not 0".
fn slot(address: u16, mode: u64) -> Option<usize>
    ensures { Finds result address (mode_of mode) }
{
    let place = usize::from(address % 4);
    match (address / 4, mode) {
        (0xd0, 3) => Some(MSCRATCH + place),
        (0x50, 1 | 3) => Some(SSCRATCH + place),
        _ => None,
    }
}

// What a read shows of a word, and what a write leaves: bits 1:0 of epc are zero.
#[tactic(auto, unfolding(crate::specs::Named::held_of))]
fn held(address: u16, v: u64) -> u64
    ensures { result ≡ held_of address v }
{
    if address % 4 == 1 { v / 4 * 4 } else { v }
}

// v at k, where an instruction writes. A function of its own, since the proof of a branch that others follow on is longer.
fn store(rest: &mut [u64; COUNT], k: usize, writes: bool, v: u64)
    requires { k < COUNT }
    ensures { rest.new ≡ pick writes (rest.old but k ≔ v) rest.old }
{
    if writes {
        rest[k] = v;
    }
}

// The instruction on the word at k. The operand is read before rd is written, which may be the same register.
fn csr(
    x: &mut [u64; 32],
    rest: &mut [u64; COUNT],
    k: usize,
    o: CsrOperation,
    rs1: u8,
    rd: u8,
    address: u16,
)
    requires { k < COUNT }
    ensures { (x.new ≡ put_of rd (held_of address (k of rest.old)) x.old)
        × (rest.new ≡ pick (writes_of o rs1)
        (rest.old but k ≔ held_of address (merged_of o (held_of address (k of rest.old)) (reg_of x.old rs1)))
        rest.old) }
{
    let old = held(address, rest[k]);
    let v = register::reg(x, rs1);
    let new = held(address, csrs::merged(o, old, v));
    store(rest, k, csrs::writes(o, rs1), new);
    register::put(x, rd, old);
}

// A word whose opcode and funct3 are those of CSR operation o with a register.
#[tactic(auto, using(crate::proofs::Carrying::done))]
fn csr_word(w: u32, x: &mut [u64; 32], rest: &mut [u64; COUNT], o: CsrOperation) -> bool
    ensures { (next : ℕ) (permitted : Bool)
        → Handles result (csr_effect_of o (Register (bits w 19 15)) (bits w 11 7) (bits w 31 20) w x.old next
        (mode_of (MODE of rest.old)) permitted)
        x.old rest.old next x.new rest.new }
{
    let address = (w / 1048576 % 4096) as u16;
    let Some(k) = slot(address, rest[MODE]) else {
        return false;
    };
    let f = field::split(w);
    csr(x, rest, k, o, f.rs1, f.rd, address);
    true
}

// One word, by funct3 and opcode, on the registers x and the hart's other words; whether it was done. If so, pc goes on to the next
// instruction, which is left to the caller.
pub fn handle(w: u32, x: &mut [u64; 32], rest: &mut [u64; COUNT]) -> bool
    ensures { (pc ssp : ℕ) (s : Setting) (m map : List ℕ) → s.control.mode ≡ mode_of (MODE of rest.old)
        → Handles result (execute_of (decode_of w) w x.old pc ssp s m map)
        x.old rest.old (next_of pc) x.new rest.new }
{
    match w / 4096 % 8 * 128 + w % 128 {
        0b001_1110011 => csr_word(w, x, rest, CsrOperation::Write),
        0b010_1110011 => csr_word(w, x, rest, CsrOperation::Set),
        0b011_1110011 => csr_word(w, x, rest, CsrOperation::Clear),
        _ => false,
    }
}
