// The number of an operation, as the manual's listings print it: funct7, then rs2, then funct3, with 0 for what is an operand.
ghost use Rattle.std.specs.Prelude.{◌≡◌, ℕ};
ghost use Rattle.decode_numbers.specs.Key.{condition_key, operation_key, word_operation_key, width_key, load_key, swap_key, csr_operation_key, csr_key};

use isa::{Condition, CsrOperation, CsrSource, Operation, Width, WordOperation};

// What has a number of its own.
pub trait Key {
    ghost key_of: { Self → ℕ };

    fn key(self) -> u64
        ensures { result ≡ key_of self };
}

impl Key for Condition {
    ghost key_of = { condition_key };

    fn key(self) -> u64 {
        match self {
            Condition::Equal => 0b000,
            Condition::NotEqual => 0b001,
            Condition::Less => 0b100,
            Condition::NotLess => 0b101,
            Condition::LessUnsigned => 0b110,
            Condition::NotLessUnsigned => 0b111,
        }
    }
}

impl Key for Operation {
    ghost key_of = { operation_key };

    fn key(self) -> u64 {
        match self {
            Operation::Add => 0b0000000_00000_000,
            Operation::Sub => 0b0100000_00000_000,
            Operation::Sll => 0b0000000_00000_001,
            Operation::Slt => 0b0000000_00000_010,
            Operation::Sltu => 0b0000000_00000_011,
            Operation::Xor => 0b0000000_00000_100,
            Operation::Srl => 0b0000000_00000_101,
            Operation::Sra => 0b0100000_00000_101,
            Operation::Or => 0b0000000_00000_110,
            Operation::And => 0b0000000_00000_111,
            Operation::Mul => 0b0000001_00000_000,
            Operation::Mulh => 0b0000001_00000_001,
            Operation::Mulhsu => 0b0000001_00000_010,
            Operation::Mulhu => 0b0000001_00000_011,
            Operation::Div => 0b0000001_00000_100,
            Operation::Divu => 0b0000001_00000_101,
            Operation::Rem => 0b0000001_00000_110,
            Operation::Remu => 0b0000001_00000_111,
            Operation::Min => 0b0000101_00000_100,
            Operation::Minu => 0b0000101_00000_101,
            Operation::Max => 0b0000101_00000_110,
            Operation::Maxu => 0b0000101_00000_111,
            Operation::Clz => 0b0110000_00000_001,
            Operation::Ctz => 0b0110000_00001_001,
            Operation::Cpop => 0b0110000_00010_001,
        }
    }
}

impl Key for WordOperation {
    ghost key_of = { word_operation_key };

    fn key(self) -> u64 {
        match self {
            WordOperation::Addw => 0b0000000_00000_000,
            WordOperation::Subw => 0b0100000_00000_000,
            WordOperation::Sllw => 0b0000000_00000_001,
            WordOperation::Srlw => 0b0000000_00000_101,
            WordOperation::Sraw => 0b0100000_00000_101,
            WordOperation::Mulw => 0b0000001_00000_000,
            WordOperation::Divw => 0b0000001_00000_100,
            WordOperation::Divuw => 0b0000001_00000_101,
            WordOperation::Remw => 0b0000001_00000_110,
            WordOperation::Remuw => 0b0000001_00000_111,
            WordOperation::Clzw => 0b0110000_00000_001,
            WordOperation::Ctzw => 0b0110000_00001_001,
            WordOperation::Cpopw => 0b0110000_00010_001,
        }
    }
}

impl Key for Width {
    ghost key_of = { width_key };

    fn key(self) -> u64 {
        match self {
            Width::Byte => 0b000,
            Width::Half => 0b001,
            Width::Word => 0b010,
            Width::Double => 0b011,
        }
    }
}

impl Key for CsrOperation {
    ghost key_of = { csr_operation_key };

    fn key(self) -> u64 {
        match self {
            CsrOperation::Write => 0b001,
            CsrOperation::Set => 0b010,
            CsrOperation::Clear => 0b011,
        }
    }
}

// There is no LDU: its number is that of no load.
pub fn load(w: Width, signed: bool) -> u64
    ensures { result ≡ load_key w signed }
{
    if signed { w.key() } else { w.key() + 0b100 }
}

// The swap's funct5 is 01001.
pub fn swap(w: Width) -> u64
    ensures { result ≡ swap_key w }
{
    0b0100100_00000_000 + w.key()
}

pub fn csr(o: CsrOperation, s: CsrSource) -> u64
    ensures { result ≡ csr_key o s }
{
    match s {
        CsrSource::Register(_) => o.key(),
        CsrSource::Immediate(_) => o.key() + 0b100,
    }
}
