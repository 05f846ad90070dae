// What the words of OP, OP-IMM and their word forms write, from the values of their operands: the decoder's rows, and what each of them
// computes, in one match; `None` where a table has no such row. A match on what another match gave is a second jump, unless the compiler
// joins the two; it did while there were ten operations, and does not with twenty-five (docs/SPEED.md).
#![tactic(auto)]

ghost use Rattle.std.specs.Prelude.{ℕ};
ghost use Rattle.decode_base.specs.Base.{count_of, shift_of, op_imm_of, count_word_of, word_shift_of, op_imm32_of, op_of, op32_of, extension_of, extension32_of};
ghost use Rattle.run_value.specs.Value.{Writes};

use product::{count, divide, extreme, multiply};
use step_effect::compute::one;
use word::field::Fields;
use word::{logic, order, shift, sum};

// M, and the minimum and maximum of Zbb.
fn extension(f: Fields, a: u64, b: u64) -> Option<u64>
    ensures { Writes result (extension_of f) f a b }
{
    match f.funct7 as u32 * 8 + f.funct3 as u32 {
        0b0000001_000 => Some(multiply::product::<64>(a, b)),
        0b0000001_001 => Some(multiply::upper(true, true, a, b)),
        0b0000001_010 => Some(multiply::upper(true, false, a, b)),
        0b0000001_011 => Some(multiply::upper(false, false, a, b)),
        0b0000001_100 => Some(divide::quotient::<64>(true, a, b)),
        0b0000001_101 => Some(divide::quotient::<64>(false, a, b)),
        0b0000001_110 => Some(divide::remainder::<64>(true, a, b)),
        0b0000001_111 => Some(divide::remainder::<64>(false, a, b)),
        0b0000101_100 => Some(extreme::smaller(true, a, b)),
        0b0000101_101 => Some(extreme::smaller(false, a, b)),
        0b0000101_110 => Some(extreme::larger(true, a, b)),
        0b0000101_111 => Some(extreme::larger(false, a, b)),
        _ => None,
    }
}

// OP.
pub fn op(f: Fields, a: u64, b: u64) -> Option<u64>
    ensures { Writes result (op_of f) f a b }
{
    match f.funct7 as u32 * 8 + f.funct3 as u32 {
        0b0000000_000 => Some(sum::sum(a, b)),
        0b0100000_000 => Some(sum::difference(a, b)),
        0b0000000_001 => Some(shift::left::<64>(a, b)),
        0b0000000_010 => Some(one(order::signed_less(a, b))),
        0b0000000_011 => Some(one(order::unsigned_less(a, b))),
        0b0000000_100 => Some(logic::xor(a, b)),
        0b0000000_101 => Some(shift::right::<64>(a, b)),
        0b0100000_101 => Some(shift::arithmetic::<64>(a, b)),
        0b0000000_110 => Some(logic::or(a, b)),
        0b0000000_111 => Some(logic::and(a, b)),
        _ => extension(f, a, b),
    }
}

// M's word forms.
fn extension_32(f: Fields, a: u64, b: u64) -> Option<u64>
    ensures { Writes result (extension32_of f) f a b }
{
    match f.funct7 as u32 * 8 + f.funct3 as u32 {
        0b0000001_000 => Some(multiply::product::<32>(a, b)),
        0b0000001_100 => Some(divide::quotient::<32>(true, a, b)),
        0b0000001_101 => Some(divide::quotient::<32>(false, a, b)),
        0b0000001_110 => Some(divide::remainder::<32>(true, a, b)),
        0b0000001_111 => Some(divide::remainder::<32>(false, a, b)),
        _ => None,
    }
}

// OP-32.
pub fn op_32(f: Fields, a: u64, b: u64) -> Option<u64>
    ensures { Writes result (op32_of f) f a b }
{
    match f.funct7 as u32 * 8 + f.funct3 as u32 {
        0b0000000_000 => Some(sum::sum_word(a, b)),
        0b0100000_000 => Some(sum::difference_word(a, b)),
        0b0000000_001 => Some(shift::left::<32>(a, b)),
        0b0000000_101 => Some(shift::right::<32>(a, b)),
        0b0100000_101 => Some(shift::arithmetic::<32>(a, b)),
        _ => extension_32(f, a, b),
    }
}

// The counts of Zbb.
fn counts(f: Fields, a: u64) -> Option<u64>
    ensures { (b : ℕ) → Writes result (count_of f) f a b }
{
    match f.funct7 as u32 * 256 + f.rs2 as u32 * 8 + f.funct3 as u32 {
        0b0110000_00000_001 => Some(count::leading::<64>(a)),
        0b0110000_00001_001 => Some(count::trailing::<64>(a)),
        0b0110000_00010_001 => Some(count::set::<64>(a)),
        _ => None,
    }
}

// The immediate shifts, whose amount has six bits.
fn shifts(f: Fields, a: u64) -> Option<u64>
    ensures { (b : ℕ) → Writes result (shift_of f) f a b }
{
    let amount = (f.funct7 % 2) as u64 * 32 + f.rs2 as u64;
    match (f.funct7 / 2) as u32 * 8 + f.funct3 as u32 {
        0b000000_001 => Some(shift::left::<64>(a, amount)),
        0b000000_101 => Some(shift::right::<64>(a, amount)),
        0b010000_101 => Some(shift::arithmetic::<64>(a, amount)),
        _ => counts(f, a),
    }
}

// OP-IMM. The two rows that are shifts are named, so that the compiler makes one table of all eight.
pub fn op_imm(f: Fields, a: u64, v: u64) -> Option<u64>
    ensures { (b : ℕ) → Writes result (op_imm_of f v) f a b }
{
    let funct3 = f.funct3;
    match funct3 {
        0b000 => Some(sum::sum(a, v)),
        0b010 => Some(one(order::signed_less(a, v))),
        0b011 => Some(one(order::unsigned_less(a, v))),
        0b100 => Some(logic::xor(a, v)),
        0b110 => Some(logic::or(a, v)),
        0b111 => Some(logic::and(a, v)),
        0b001 | 0b101 => shifts(f, a),
        _ => None,
    }
}

// The counts' word forms.
fn count_words(f: Fields, a: u64) -> Option<u64>
    ensures { (b : ℕ) → Writes result (count_word_of f) f a b }
{
    match f.funct7 as u32 * 256 + f.rs2 as u32 * 8 + f.funct3 as u32 {
        0b0110000_00000_001 => Some(count::leading::<32>(a)),
        0b0110000_00001_001 => Some(count::trailing::<32>(a)),
        0b0110000_00010_001 => Some(count::set::<32>(a)),
        _ => None,
    }
}

// The shifts of words, whose amount has the five bits of rs2.
fn word_shifts(f: Fields, a: u64) -> Option<u64>
    ensures { (b : ℕ) → Writes result (word_shift_of f) f a b }
{
    let amount = f.rs2 as u64;
    match f.funct7 as u32 * 8 + f.funct3 as u32 {
        0b0000000_001 => Some(shift::left::<32>(a, amount)),
        0b0000000_101 => Some(shift::right::<32>(a, amount)),
        0b0100000_101 => Some(shift::arithmetic::<32>(a, amount)),
        _ => count_words(f, a),
    }
}

// OP-IMM-32.
pub fn op_imm_32(f: Fields, a: u64, v: u64) -> Option<u64>
    ensures { (b : ℕ) → Writes result (op_imm32_of f v) f a b }
{
    let funct3 = f.funct3;
    match funct3 {
        0b000 => Some(sum::sum_word(a, v)),
        _ => word_shifts(f, a),
    }
}
