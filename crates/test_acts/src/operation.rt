// The cases on a hart: an operation, its two arguments and a hart, and what comes of it.
//
// The operations are: 0 read the CSR at an address, 1 write a value to it, 2 whether refusal 1 lets the hart
// pass, 3 a trap with a cause and a tval, 4 MRET, 5 SRET, and in the hart's mode 6 the active shadow enable,
// 7 whether a swap may be executed, 8 the pad enable, 9 the regime of an access. An argument that an operation does not have is 0. The
// wanted numbers are 1 for illegal or refused, the value that comes out (an enable's is 1 where it is on),
// and the hart after it.
ghost use Rattle.std.specs.Prelude.{◌≡◌, OnOk, length};

use super::state;
use address::mask;
use csr::Csr;
use csr_setting::{Setting, reach};
use csr_words::{MENVCFG, MODE, SENVCFG, setting};
use isa::Kind;
use step_hart::Hart;
use test_lines::case::CaseError;
use test_rules::places;

#[derive(Clone, Copy)]
enum Operation {
    Read(u16),
    Write(u16, u64),
    Legal,
    Trap(u64, u64),
    Mret,
    Sret,
    Shadow,
    Swap,
    Pad,
    Regime(Kind),
}

// By its number and its two arguments. The address of a CSR is one that an instruction can have.
impl TryFrom<[u64; 3]> for Operation {
    type Error = CaseError;

    fn try_from(numbers: [u64; 3]) -> Result<Operation, CaseError> {
        match numbers {
            [0, address @ 0..=0xfff, _] => Ok(Operation::Read(address as u16)),
            [1, address @ 0..=0xfff, value] => Ok(Operation::Write(address as u16, value)),
            [2, _, _] => Ok(Operation::Legal),
            [3, cause, tval] => Ok(Operation::Trap(cause, tval)),
            [4, _, _] => Ok(Operation::Mret),
            [5, _, _] => Ok(Operation::Sret),
            [6, _, _] => Ok(Operation::Shadow),
            [7, _, _] => Ok(Operation::Swap),
            [8, _, _] => Ok(Operation::Pad),
            [9, kind, _] => {
                let kind = places::known_kind(kind).ok_or(CaseError::Given)?;
                Ok(Operation::Regime(kind))
            }
            _ => Err(CaseError::Given),
        }
    }
}

fn reached(h: Hart, address: u16) -> Option<Csr> {
    let w = h.words;
    reach::reached(w[MODE], w[MENVCFG], w[SENVCFG], address)
}

fn says(h: Hart) -> Setting {
    let w = h.words;
    setting::setting(&w)
}

// The regime of an access of a kind: the effective mode, and 4 where Sv39 is in force, 8 for SUM, 16 for MXR, 32
// for menvcfg.SSE, and 64 times the masked bits.
fn regime(h: Hart, kind: Kind) -> u64 {
    let g = says(h).control;
    let m = g.effective(kind);
    u64::from(m)
        + 4 * u64::from(g.paged(m))
        + 8 * u64::from(g.sum)
        + 16 * u64::from(g.mxr)
        + 32 * u64::from(g.sse)
        + 64 * mask::pmlen(g.pmm(m))
}

impl Operation {
    // The value that comes out, and the hart after it; nothing where it is illegal or refused.
    fn done(self, h: Hart) -> Option<(u64, Hart)> {
        match self {
            Operation::Read(address) => Some((h.csr_read(reached(h, address)?), h)),
            Operation::Write(address, v) => Some((0, h.csr_write(reached(h, address)?, v))),
            Operation::Legal => h.legal().then_some((0, h)),
            Operation::Trap(cause, tval) => Some((0, h.trap(cause, tval))),
            Operation::Mret => Some((0, h.mret())),
            Operation::Sret => Some((0, h.sret())),
            Operation::Shadow => Some((u64::from(says(h).shadow), h)),
            Operation::Swap => says(h).permitted.then_some((0, h)),
            Operation::Pad => Some((u64::from(says(h).pad), h)),
            Operation::Regime(kind) => Some((regime(h, kind), h)),
        }
    }
}

pub fn run(given: &[u64]) -> Result<[u64; 54], CaseError>
    ensures { OnOk result (length given.now ≡ 55) }
{
    let [operation, first, second, hart @ ..] = given else {
        return Err(CaseError::Given);
    };
    if hart.len() != state::NUMBERS {
        return Err(CaseError::Given);
    }
    let operation = Operation::try_from([*operation, *first, *second])?;
    let hart = state::given(given);
    let done = operation.done(hart);
    let (value, after) = done.unwrap_or((0, hart));
    let mut numbers = [0u64; 54];
    numbers[0] = u64::from(done.is_none());
    numbers[1] = value;
    numbers[2..].copy_from_slice(&state::numbers(after));
    Ok(numbers)
}
