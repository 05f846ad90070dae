// Loads, stores, push and pop-check, done in place. Where an access has no place, or a pop-check finds another value, the instruction is
// left undone: the slow path finds the exception.
//
// `flat` says beforehand that loads and stores are neither masked nor translated.
ghost use Rattle.std.specs.Prelude.{true, List, ◌≡◌, ℕ, ◌^◌, ◌≤◌, length};
ghost use Rattle.word.specs.Field.{fields_of};
ghost use Rattle.word.specs.Immediate.{imm_i_of, imm_s_of};
ghost use Rattle.isa.specs.declared.Access.TheVariants as access;
ghost use Rattle.isa.specs.declared.Instruction.TheVariants.{Memory};
ghost use Rattle.isa.specs.declared.Width.TheVariants.{Double};
ghost use Rattle.decode_base.specs.Base.{decode_load_of, decode_store_of};
ghost use Rattle.isa.specs.declared.Kind.TheVariants as kind;
ghost use Rattle.address.specs.Control.{flat_of};
ghost use Rattle.address.specs.Stack.{push_of};
ghost use Rattle.decode.specs.System.{system_of};
ghost use Rattle.address_place.specs.Place.{place_of};
ghost use Rattle.step_transfer.specs.Access.{at_of};
ghost use Rattle.step_meaning.specs.Instruction.{next_of, execute_of};
ghost use Rattle.csr_setting.specs.declared.Setting as setting;
ghost use Rattle.csr_words.specs.Words.{◌of◌, SSP};
ghost use Rattle.run_done.specs.Moves.{Done, Loads};

use super::wrote;
use address::Virtual;
use address::control::Control;
use address_place::steps;
use csr_words::{COUNT, SSP};
use isa::{Access, Instruction, Kind, Width};
use step_effect::register::reg;
use step_meaning::Context;
use word::field::Fields;
use word::{field, immediate, sum};

// A load from address a.
fn load_at(
    n: Width,
    sign: bool,
    rd: u8,
    a: u64,
    x: &mut [u64; 32],
    pc: u64,
    c: Control,
    mem: &[u8],
    map: &[u64],
) -> Option<u64>
    requires { length mem.now ≤ 2 ^ 20 }
    ensures { (rest : List ℕ) → Done result (at_of (access.Load n sign) (place_of c kind.Load n a map.now
        (length mem.now)) rd 0 0 0 (next_of pc) mem.now) x.old rest mem.now x.new rest
        mem.now }
{
    let Ok(q) = steps::translate(c, Kind::Load, n, Virtual(a), map, mem) else {
        return None;
    };
    let v = memory::extend(n, sign, memory::load(mem, q.index(), n));
    wrote(x, rd, v, sum::sum(pc, 4))
}

// What a load from address a puts into its register, where loads are neither masked nor translated.
fn flat_load(n: Width, sign: bool, a: u64, mem: &[u8]) -> Option<u64>
    requires { length mem.now ≤ 2 ^ 20 }
    ensures { (f : Fields) (off : ℕ) → Loads result (Memory (access.Load n sign) f.rd f.rs1 0 off) f off a mem.now }
{
    let Ok(q) = steps::plainly(Kind::Load, n, Virtual(a), mem) else {
        return None;
    };
    Some(memory::extend(n, sign, memory::load(mem, q.index(), n)))
}

// The rows of LOAD. Each has its width written out: so the compiler asks once what a word's width is, and not at each use (docs/SPEED.md).
fn flat_row(f: Fields, a: u64, mem: &[u8]) -> Option<u64>
    requires { length mem.now ≤ 2 ^ 20 }
    ensures { (off : ℕ) → Loads result (decode_load_of f off) f off a mem.now }
{
    let funct3 = f.funct3;
    match funct3 {
        0b000 => flat_load(Width::Byte, true, a, mem),
        0b001 => flat_load(Width::Half, true, a, mem),
        0b010 => flat_load(Width::Word, true, a, mem),
        0b011 => flat_load(Width::Double, true, a, mem),
        0b100 => flat_load(Width::Byte, false, a, mem),
        0b101 => flat_load(Width::Half, false, a, mem),
        0b110 => flat_load(Width::Word, false, a, mem),
        _ => None,
    }
}

// LOAD, where loads are neither masked nor translated.
fn load_flat(w: u32, x: &mut [u64; 32], pc: u64, mem: &[u8]) -> Option<u64>
    requires { length mem.now ≤ 2 ^ 20 }
    ensures { (ssp : ℕ) (s : setting.Setting) (rest map : List ℕ) → flat_of s.control ≡ true
        → Done result (execute_of (decode_load_of (fields_of w) (imm_i_of w)) w x.old pc ssp s mem.now map) x.old rest
        mem.now x.new rest mem.now }
{
    let f = field::split(w);
    let v = flat_row(f, sum::sum(reg(x, f.rs1), immediate::imm_i(w)), mem)?;
    wrote(x, f.rd, v, sum::sum(pc, 4))
}

pub fn load(w: u32, x: &mut [u64; 32], pc: u64, k: Context, mem: &[u8], map: &[u64]) -> Option<u64>
    requires { (length mem.now ≤ 2 ^ 20) × (k.flat ≡ flat_of k.setting.control) }
    ensures { (ssp : ℕ) (rest : List ℕ) → Done result (execute_of (decode_load_of (fields_of w) (imm_i_of w)) w x.old pc ssp k.setting
        mem.now map.now) x.old rest mem.now x.new rest mem.now }
{
    if k.flat {
        return load_flat(w, x, pc, mem);
    }
    let c = k.setting.control;
    let Instruction::Memory(Access::Load(n, sign), rd, rs1, _, off) = decode_base::load(
        field::split(w),
        immediate::imm_i(w),
    ) else {
        return None;
    };
    let a = sum::sum(reg(x, rs1), off);
    load_at(n, sign, rd, a, x, pc, c, mem, map)
}

// A store of v to address a.
fn store_at(
    n: Width,
    a: u64,
    v: u64,
    pc: u64,
    flat: bool,
    c: Control,
    mem: &mut [u8],
    map: &[u64],
) -> Option<u64>
    requires { (length mem.old ≤ 2 ^ 20) × (flat ≡ flat_of c) }
    ensures { (x rest : List ℕ) → Done result (at_of (access.Store n)
        (place_of c kind.Store n a map.now (length mem.old)) 0 0 v 0 (next_of pc) mem.old) x rest mem.old x rest mem.new }
{
    let Ok(q) = steps::quick_data(flat, c, Kind::Store, n, Virtual(a), map, mem) else {
        return None;
    };
    memory::store(mem, q.index(), n, v);
    Some(sum::sum(pc, 4))
}

pub fn store(w: u32, x: &[u64; 32], pc: u64, k: Context, mem: &mut [u8], map: &[u64]) -> Option<u64>
    requires { (length mem.old ≤ 2 ^ 20) × (k.flat ≡ flat_of k.setting.control) }
    ensures { (ssp : ℕ) (rest : List ℕ) → Done result (execute_of (decode_store_of (fields_of w) (imm_s_of w)) w x.now pc ssp k.setting
        mem.old map.now) x.now rest mem.old x.now rest mem.new }
{
    let flat = k.flat;
    let c = k.setting.control;
    let Instruction::Memory(Access::Store(n), _, rs1, rs2, off) = decode_base::store(
        field::split(w),
        immediate::imm_s(w),
    ) else {
        return None;
    };
    let a = sum::sum(reg(x, rs1), off);
    store_at(n, a, reg(x, rs2), pc, flat, c, mem, map)
}

// A push of v: to ssp - 8, which is then ssp.
fn push(
    v: u64,
    pc: u64,
    rest: &mut [u64; COUNT],
    c: Control,
    mem: &mut [u8],
    map: &[u64],
) -> Option<u64>
    requires { length mem.old ≤ 2 ^ 20 }
    ensures { (x : List ℕ) → Done result (at_of access.Push (place_of c kind.Push Double (push_of (SSP of rest.old))
        map.now (length mem.old)) 0 0 v (SSP of rest.old) (next_of pc) mem.old) x rest.old
        mem.old x rest.new mem.new }
{
    let top = sum::difference(rest[SSP], 8);
    let Ok(q) = steps::translate(c, Kind::Push, Width::Double, Virtual(top), map, mem) else {
        return None;
    };
    memory::store(mem, q.index(), Width::Double, v);
    rest[SSP] = top;
    Some(sum::sum(pc, 4))
}

// A pop-check of v: at ssp, which goes up by 8 where v is found.
fn pop(v: u64, pc: u64, rest: &mut [u64; COUNT], c: Control, mem: &[u8], map: &[u64]) -> Option<u64>
    requires { length mem.now ≤ 2 ^ 20 }
    ensures { (x : List ℕ) → Done result (at_of access.Pop (place_of c kind.Pop Double (SSP of rest.old) map.now
        (length mem.now)) 0 v 0 (SSP of rest.old) (next_of pc) mem.now) x rest.old mem.now x rest.new mem.now }
{
    let ssp = rest[SSP];
    let Ok(q) = steps::translate(c, Kind::Pop, Width::Double, Virtual(ssp), map, mem) else {
        return None;
    };
    if memory::load(mem, q.index(), Width::Double) == v {
        rest[SSP] = sum::sum(ssp, 8);
        return Some(sum::sum(pc, 4));
    }
    None
}

// The words for push and pop-check (docs/HART.md, 3.18), while the active shadow enable is set. Off, they write 0 to register 0: that is
// left to the slow path.
pub fn shadow(
    w: u32,
    x: &[u64; 32],
    rest: &mut [u64; COUNT],
    pc: u64,
    k: Context,
    mem: &mut [u8],
    map: &[u64],
) -> Option<u64>
    requires { length mem.old ≤ 2 ^ 20 }
    ensures { Done result (execute_of (system_of w (fields_of w)) w x.now pc (SSP of rest.old) k.setting
        mem.old map.now) x.now rest.old mem.old x.now rest.new
        mem.new }
{
    let c = k.setting.control;
    if !k.setting.shadow {
        return None;
    }
    match w {
        0xce104073 => push(reg(x, 1), pc, rest, c, mem, map),
        0xce504073 => push(reg(x, 5), pc, rest, c, mem, map),
        0xcdc0c073 => pop(reg(x, 1), pc, rest, c, mem, map),
        0xcdc2c073 => pop(reg(x, 5), pc, rest, c, mem, map),
        _ => None,
    }
}
