// Intel HEX in: loads the text of a HEX file into memory, or refuses it and changes nothing.
#![tactic(auto)]

ghost use Rattle.std.specs.Prelude.{◌≡◌};
ghost use Rattle.intel_hex.specs.Load.{load_refusal_number, line_of, load_hex_of};

// Hex digits and pairs, and the table of them.
mod pair;
// The first line of a text: its hex pairs, and its end.
mod scan;
// One line: what it says, whether it is good, and what it sets.
mod line;
// The first pass: the first bad line, or the start address.
mod verdict;
// The second pass: the data into memory.
mod store;

// Why a load is refused.
#[derive(Clone, Copy, PartialEq, Eq, Debug)]
pub enum Refusal {
    // Memory's length is none that is accepted.
    Memory,
    // The line of this number is the first bad one.
    Line(u64),
}

impl Refusal {
    // Refusals have numbers, for callers that know no enum.
    pub fn number(self) -> u64
        ensures { result ≡ load_refusal_number self }
    {
        match self {
            Refusal::Memory => 2,
            Refusal::Line(_) => 6,
        }
    }

    // The first bad line; 0 where the refusal names none.
    pub fn line(self) -> u64
        ensures { result ≡ line_of self }
    {
        match self {
            Refusal::Memory => 0,
            Refusal::Line(n) => n,
        }
    }
}

// Anything may be handed in. A load answers with the start address, if the text gives one. What it answers and leaves of every byte of memory is stated
// in specs/Load.antt.
pub fn load(text: &[u8], mem: &mut [u8]) -> Result<Option<u64>, Refusal>
    ensures answer { result ≡ (load_hex_of text.now mem.old).answer }
    ensures memory { mem.new ≡ (load_hex_of text.now mem.old).memory }
{
    if memory::refused(mem.len() as u64) {
        return Err(Refusal::Memory);
    }
    let table = pair::Table::new();
    let start = verdict::judge(&table, text, mem.len())?;
    store::store(&table, text, mem);
    Ok(start)
}
