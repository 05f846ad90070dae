// One line: what it says, whether it is good, and what it sets.
ghost use Rattle.std.specs.Prelude.{◌≡◌, true, ◌&&◌, ◌+◌, ◌*◌, ◌^◌, ◌<◌, eqb, length};
ghost use Rattle.intel_hex.specs.Line.{byte_of, half_of, record_count_of, offset_of, record_type_of, record_address_of, well_formed, inside, good};
ghost use Rattle.intel_hex.specs.Load.{upper_after_of, start_after_of};
ghost use Rattle.intel_hex.specs.Inner.{Framed, type_number, record_type_at};

use super::pair::Table;

// What a record is for. Other types are not read.
#[derive(Clone, Copy, PartialEq, Eq, Debug)]
pub enum RecordType {
    Data,
    End,
    UpperAddress,
    StartAddress,
}

// `of` answers an Option and no TryFrom: its one caller asks for no reason.
impl RecordType {
    fn of(number: u8) -> Option<RecordType>
        ensures { result ≡ record_type_at number }
    {
        match number {
            0 => Some(RecordType::Data),
            1 => Some(RecordType::End),
            4 => Some(RecordType::UpperAddress),
            5 => Some(RecordType::StartAddress),
            _ => None,
        }
    }
}

// No byte of a data record is outside memory.
#[tactic(auto, unfolding(crate::specs::Line::inside))]
fn is_inside(len: usize, count: u8, address: u64) -> bool
    requires { address < 2 ^ 32 }
    ensures { result ≡ inside len 0 count address }
{
    count == 0 || (0x8000_0000 <= address && address + count as u64 - 0x8000_0000 <= len as u64)
}

// A line that is a colon and hex pairs, as many as its count says, which add up to 0 modulo 256.
#[derive(Clone, Copy)]
pub struct Line<'a> {
    pub table: &'a Table,
    pub text: &'a [u8],
    ghost framed: { Framed text.now },
}

impl Line<'_> {
    pub fn byte(&self, k: usize) -> u8
        requires { 2 * k + 2 < length self.now.text.now }
        ensures { result ≡ byte_of self.now.text.now k }
    {
        self.table.at(self.text, 2 * k + 1) as u8
    }

    // The number in the bytes k and k + 1.
    fn half(&self, k: usize) -> u16
        requires { 2 * k + 4 < length self.now.text.now }
        ensures { result ≡ half_of self.now.text.now k }
    {
        self.byte(k) as u16 * 256 + self.byte(k + 1) as u16
    }

    pub fn count(&self) -> u8
        ensures { result ≡ record_count_of self.now.text.now }
    {
        self.byte(0)
    }

    fn record_type(&self) -> Option<RecordType>
        ensures { result ≡ record_type_at (record_type_of self.now.text.now) }
    {
        RecordType::of(self.byte(3))
    }

    pub fn is(&self, wanted: RecordType) -> bool
        ensures { result ≡ eqb (record_type_of self.now.text.now) (type_number wanted) }
    {
        self.record_type() == Some(wanted)
    }

    // Where the data go.
    pub fn address(&self, upper: u16) -> u64
        ensures { (result ≡ record_address_of upper self.now.text.now) × (result < 2 ^ 32) }
    {
        upper as u64 * 65536 + self.half(1) as u64
    }

    // So many data bytes, and offset 0000.
    fn is_fixed(&self, count: u8) -> bool
        ensures { result ≡ eqb (record_count_of self.now.text.now) count && eqb (offset_of self.now.text.now) 0 }
    {
        self.count() == count && self.half(1) == 0
    }

    // What its type asks for; a type that is not read has no good line.
    pub fn is_good(&self, upper: u16, len: usize) -> bool
        ensures { result ≡ good len upper self.now.text.now }
    {
        match self.record_type() {
            Some(RecordType::Data) => is_inside(len, self.count(), self.address(upper)),
            Some(RecordType::End) => self.is_fixed(0),
            Some(RecordType::UpperAddress) => self.is_fixed(2),
            Some(RecordType::StartAddress) => self.is_fixed(4),
            None => false,
        }
    }

    // The upper address after a well-formed line.
    pub fn upper_after(&self, upper: u16) -> u16
        requires { well_formed self.now.text.now ≡ true }
        ensures { result ≡ upper_after_of upper self.now.text.now }
    {
        if self.is(RecordType::UpperAddress) {
            return self.half(4);
        }
        upper
    }

    // The start address after a well-formed line.
    pub fn start_after(&self, start: Option<u64>) -> Option<u64>
        requires { well_formed self.now.text.now ≡ true }
        ensures { result ≡ start_after_of start self.now.text.now }
    {
        if self.is(RecordType::StartAddress) {
            return Some(self.half(4) as u64 * 65536 + self.half(6) as u64);
        }
        start
    }
}
