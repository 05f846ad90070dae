// The struct of mstatus' fields from its word, and the word from the struct: two functions and no `From`, since the way back asks that MPP has two bits.
ghost use Rattle.std.specs.Prelude.{◌≡◌, ◌<◌};
ghost use Rattle.csr_status.specs.Status.{status_of, status_word_of};

use super::Status;

pub fn split(m: u64) -> Status
    ensures { (result ≡ status_of m) × (result.mpp < 4) }
{
    Status {
        sie: m / 0x2 % 2 == 1,
        mie: m / 0x8 % 2 == 1,
        spie: m / 0x20 % 2 == 1,
        mpie: m / 0x80 % 2 == 1,
        spp: m / 0x100 % 2 == 1,
        mpp: m / 0x800 % 4,
        mprv: m / 0x2_0000 % 2 == 1,
        sum: m / 0x4_0000 % 2 == 1,
        mxr: m / 0x8_0000 % 2 == 1,
        spelp: m / 0x80_0000 % 2 == 1,
        mpelp: m / 0x200_0000_0000 % 2 == 1,
    }
}

pub fn word(s: Status) -> u64
    requires { s.mpp < 4 }
    ensures { result ≡ status_word_of s }
{
    u64::from(s.sie) * 0x2
        + u64::from(s.mie) * 0x8
        + u64::from(s.spie) * 0x20
        + u64::from(s.mpie) * 0x80
        + u64::from(s.spp) * 0x100
        + s.mpp * 0x800
        + u64::from(s.mprv) * 0x2_0000
        + u64::from(s.sum) * 0x4_0000
        + u64::from(s.mxr) * 0x8_0000
        + u64::from(s.spelp) * 0x80_0000
        + 0xa_0000_0000
        + u64::from(s.mpelp) * 0x200_0000_0000
}
