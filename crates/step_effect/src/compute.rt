// What OP, OP-IMM and their word forms compute from two numbers, and when a branch is taken.
ghost use Rattle.std.specs.Prelude.{◌≡◌};
ghost use Rattle.step_effect.specs.Compute.{one_of, operation_of, word_operation_of, condition_of};

use isa::{Condition, Operation, WordOperation};
use product::{count, divide, extreme, multiply};
use word::{logic, order, shift, sum};

// 1 where a test holds, else 0.
pub fn one(b: bool) -> u64
    ensures { result ≡ one_of b }
{
    u64::from(b)
}

pub fn operation(o: Operation, a: u64, b: u64) -> u64
    ensures { result ≡ operation_of o a b }
{
    match o {
        Operation::Add => sum::sum(a, b),
        Operation::Sub => sum::difference(a, b),
        Operation::Sll => shift::left::<64>(a, b),
        Operation::Slt => one(order::signed_less(a, b)),
        Operation::Sltu => one(order::unsigned_less(a, b)),
        Operation::Xor => logic::xor(a, b),
        Operation::Srl => shift::right::<64>(a, b),
        Operation::Sra => shift::arithmetic::<64>(a, b),
        Operation::Or => logic::or(a, b),
        Operation::And => logic::and(a, b),
        Operation::Mul => multiply::product::<64>(a, b),
        Operation::Mulh => multiply::upper(true, true, a, b),
        Operation::Mulhsu => multiply::upper(true, false, a, b),
        Operation::Mulhu => multiply::upper(false, false, a, b),
        Operation::Div => divide::quotient::<64>(true, a, b),
        Operation::Divu => divide::quotient::<64>(false, a, b),
        Operation::Rem => divide::remainder::<64>(true, a, b),
        Operation::Remu => divide::remainder::<64>(false, a, b),
        Operation::Min => extreme::smaller(true, a, b),
        Operation::Minu => extreme::smaller(false, a, b),
        Operation::Max => extreme::larger(true, a, b),
        Operation::Maxu => extreme::larger(false, a, b),
        Operation::Clz => count::leading::<64>(a),
        Operation::Ctz => count::trailing::<64>(a),
        Operation::Cpop => count::set::<64>(a),
    }
}

pub fn word_operation(o: WordOperation, a: u64, b: u64) -> u64
    ensures { result ≡ word_operation_of o a b }
{
    match o {
        WordOperation::Addw => sum::sum_word(a, b),
        WordOperation::Subw => sum::difference_word(a, b),
        WordOperation::Sllw => shift::left::<32>(a, b),
        WordOperation::Srlw => shift::right::<32>(a, b),
        WordOperation::Sraw => shift::arithmetic::<32>(a, b),
        WordOperation::Mulw => multiply::product::<32>(a, b),
        WordOperation::Divw => divide::quotient::<32>(true, a, b),
        WordOperation::Divuw => divide::quotient::<32>(false, a, b),
        WordOperation::Remw => divide::remainder::<32>(true, a, b),
        WordOperation::Remuw => divide::remainder::<32>(false, a, b),
        WordOperation::Clzw => count::leading::<32>(a),
        WordOperation::Ctzw => count::trailing::<32>(a),
        WordOperation::Cpopw => count::set::<32>(a),
    }
}

pub fn condition(k: Condition, a: u64, b: u64) -> bool
    ensures { result ≡ condition_of k a b }
{
    match k {
        Condition::Equal => a == b,
        Condition::NotEqual => a != b,
        Condition::Less => order::signed_less(a, b),
        Condition::NotLess => !order::signed_less(a, b),
        Condition::LessUnsigned => order::unsigned_less(a, b),
        Condition::NotLessUnsigned => !order::unsigned_less(a, b),
    }
}
