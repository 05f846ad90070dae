// A file of cases, read whole.
ghost use Rattle.std.specs.Prelude.{◌≤◌, ◌+◌, IfOk, vec_len};
ghost use Rattle.test_lines.specs.Most.{longest};

use std::error::Error;
use std::fmt;
use std::fs::{File, OpenFile};
use std::io::Read;
use std::rt::Files;

// How many bytes a file has at most.
const LONGEST: u64 = 2_105_344;

// Why a file was not read whole.
#[derive(Clone, Copy, Debug, PartialEq, Eq)]
pub enum ReadError {
    NotOpened,
    NotRead,
    TooLong,
}

impl fmt::Display for ReadError {
    fn fmt<W: fmt::Write>(&self, f: &mut fmt::Formatter<W>) -> fmt::Result {
        f.write_str(match self {
            ReadError::NotOpened => "cannot be opened",
            ReadError::NotRead => "cannot be read",
            ReadError::TooLong => "is longer than the program's buffer",
        })
    }
}

impl Error for ReadError {}

// How many bytes of room a file of this size is read into. One byte more than it may have tells a file that ended from one that is too long.
// Another stays free, since a full room would be made larger, and then a file would need more memory than it is long.
fn room(size: u64) -> usize
    ensures { result ≤ longest + 2 }
{
    size.min(LONGEST) as usize + 2
}

// Reads a file, whose bytes need not be text.
pub fn read<R: Files + Alloc>(rt: &R, name: &str) -> Result<Vec<u8, R::A>, ReadError>
    ensures { IfOk result (λ bytes. vec_len bytes ≤ longest) }
{
    let file = File::open(rt, name).map_err(|_| ReadError::NotOpened)?;
    let size = file.metadata().map_or(0, |metadata| metadata.len());
    let mut bytes = Vec::with_capacity(rt.alloc(), room(size)).map_err(|_| ReadError::NotRead)?;
    file.take(LONGEST + 1)
        .read_to_end(&mut bytes)
        .map_err(|_| ReadError::NotRead)?;
    if bytes.len() as u64 > LONGEST {
        return Err(ReadError::TooLong);
    }
    Ok(bytes)
}
