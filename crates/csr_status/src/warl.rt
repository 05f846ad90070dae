// What a write leaves in mstatus, and what a read shows, also through sstatus.
ghost use Rattle.std.specs.Prelude.{◌≡◌};
ghost use Rattle.word.specs.Row.{row_write_of, row_read_of};
ghost use Rattle.csr_status.specs.Fields.{mstatus, sstatus};
ghost use Rattle.csr_status.specs.Status.{sstatus_written_of};

use super::{Status, pack};
use word::choice;

// What a write of v to mstatus leaves: writing 2 to MPP keeps the old MPP.
#[tactic(auto, using(crate::proofs::Packed::merges))]
pub fn write(old: u64, v: u64) -> u64
    ensures { result ≡ row_write_of mstatus old v }
{
    let mpp = v / 0x800 % 4;
    pack::word(Status {
        mpp: choice::taken(mpp != 2, mpp, old / 0x800 % 4, 4),
        ..pack::split(v)
    })
}

fn through(s: Status, v: Status) -> Status
    ensures { result ≡ sstatus_written_of s v }
{
    Status {
        mie: s.mie,
        mpie: s.mpie,
        mpp: s.mpp,
        mprv: s.mprv,
        mpelp: s.mpelp,
        ..v
    }
}

// What a write of v to sstatus leaves in mstatus.
#[tactic(auto, using(crate::proofs::Packed::views))]
pub fn write_view(old: u64, v: u64) -> u64
    ensures { result ≡ row_write_of sstatus old v }
{
    pack::word(through(pack::split(old), pack::split(v)))
}

// What a read of mstatus shows.
#[tactic(auto, using(crate::proofs::Packed::shows))]
pub fn shown(m: u64) -> u64
    ensures { result ≡ row_read_of mstatus m }
{
    pack::word(pack::split(m))
}

// What a read of sstatus shows: UXL, and no SXL.
pub fn view(m: u64) -> u64
    ensures { result ≡ row_read_of sstatus m }
{
    m / 0x2 % 2 * 0x2
        + m / 0x20 % 2 * 0x20
        + m / 0x100 % 2 * 0x100
        + m / 0x4_0000 % 4 * 0x4_0000
        + m / 0x80_0000 % 2 * 0x80_0000
        + 0x2_0000_0000
}
