// The second pass: puts the data of every line into memory.
ghost use Rattle.std.specs.Prelude.{◌≡◌, true, ◌+◌, ◌≤◌, length};
ghost use Rattle.std.proofs.lemmas.List.Edits.{sets};
ghost use Rattle.intel_hex.specs.Lines.{lines_of};
ghost use Rattle.intel_hex.specs.Line.{record_count_of, data_of, good};
ghost use Rattle.intel_hex.specs.Load.{placed, stored};
ghost use Rattle.intel_hex.specs.Inner.{all_good};

use super::line::{Line, RecordType};
use super::pair::Table;
use super::scan;

// The data of a line, put at a place.
fn fill(mem: &mut [u8], to: usize, line: &Line)
    requires { to + record_count_of line.now.text.now ≤ length mem.old }
    ensures { mem.new ≡ sets mem.old to (data_of line.now.text.now) }
{
    for k in 0..line.count() as usize {
        mem[to + k] = line.byte(4 + k);
    }
}

// The data of a good line, put at their address.
fn put(mem: &mut [u8], line: &Line, upper: u16)
    requires { good (length mem.old) upper line.now.text.now ≡ true }
    ensures { mem.new ≡ placed upper line.now.text.now mem.old }
{
    if 0 < line.count() && line.is(RecordType::Data) {
        let to = (line.address(upper) - 0x8000_0000) as usize;
        fill(mem, to, line);
    }
}

// The data of every line.
pub fn store(table: &Table, text: &[u8], mem: &mut [u8])
    requires { all_good (length mem.old) 0 (lines_of text.now) ≡ true }
    ensures { mem.new ≡ stored 0 mem.old (lines_of text.now) }
{
    let mut upper = 0;
    let mut rest = text;
    while !rest.is_empty() {
        let (line, behind) = scan::next(table, rest);
        put(&mut *mem, &line, upper);
        upper = line.upper_after(upper);
        rest = behind;
    }
}
