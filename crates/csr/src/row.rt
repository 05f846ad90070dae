// What a write leaves of each row but mstatus', and what a read shows. By fields and arithmetic, which the checker reads.
ghost use Rattle.std.specs.Prelude.{◌≡◌, ◌<◌, ◌*◌, ◌/◌};
ghost use Rattle.word.specs.Choice.{pick};
ghost use Rattle.word.specs.Row.{Only, digit, takes_of, row_write_of, row_read_of};
ghost use Rattle.csr.specs.Row.{is_pmm, is_scheme, medeleg, satp, envcfg, envcfg_held, mseccfg};

use word::choice;

// Bits that read zero below a multiple of N: of 4 in tvec and epc, of 8 in ssp.
pub fn multiple<const N: u64>(v: u64) -> u64
    requires { 0 < N }
    ensures { result ≡ v / N * N }
{
    v / N * N
}

pub fn medeleg(v: u64) -> u64
    ensures { result ≡ row_read_of medeleg v }
{
    v % 0x400 + v / 0x1000 % 4 * 0x1000 + v / 0x8000 % 2 * 0x8000 + v / 0x4_0000 % 2 * 0x4_0000
}

// PMM: writing 1 keeps the old PMM.
fn pmm(old: u64, v: u64) -> u64
    ensures { (result ≡ takes_of (Only 2 is_pmm) (digit 32 2 old) (digit 32 2 v)) × (result < 4) }
{
    let new = v / 0x1_0000_0000 % 4;
    choice::taken(new != 1, new, old / 0x1_0000_0000 % 4, 4)
}

// menvcfg, and senvcfg, whose stored SSE stays while menvcfg.SSE is 0: sse is whether SSE is written.
pub fn envcfg(sse: bool, old: u64, v: u64) -> u64
    ensures { result ≡ row_write_of (pick sse envcfg envcfg_held) old v }
{
    let stored = if sse { v } else { old };
    v / 4 % 2 * 4 + stored / 8 % 2 * 8 + pmm(old, v) * 0x1_0000_0000
}

pub fn mseccfg(old: u64, v: u64) -> u64
    ensures { result ≡ row_write_of mseccfg old v }
{
    v / 0x400 % 2 * 0x400 + pmm(old, v) * 0x1_0000_0000
}

// satp, whose MODE is Bare or Sv39: a write with another MODE changes nothing.
pub fn satp(old: u64, v: u64) -> u64
    ensures { result ≡ row_write_of satp old v }
{
    let mode = v / 0x1000_0000_0000_0000;
    choice::taken(
        mode == 0 || mode == 8,
        mode,
        old / 0x1000_0000_0000_0000,
        16,
    ) * 0x1000_0000_0000_0000
}

// As envcfg: while menvcfg.SSE is 0, senvcfg.SSE reads as 0.
pub fn envcfg_shown(sse: bool, m: u64) -> u64
    ensures { result ≡ row_read_of (pick sse envcfg envcfg_held) m }
{
    let shown = if sse { m / 8 % 2 } else { 0 };
    m / 4 % 2 * 4 + shown * 8 + m / 0x1_0000_0000 % 4 * 0x1_0000_0000
}

pub fn mseccfg_shown(m: u64) -> u64
    ensures { result ≡ row_read_of mseccfg m }
{
    m / 0x400 % 2 * 0x400 + m / 0x1_0000_0000 % 4 * 0x1_0000_0000
}

pub fn satp_shown(m: u64) -> u64
    ensures { result ≡ row_read_of satp m }
{
    m / 0x1000_0000_0000_0000 * 0x1000_0000_0000_0000
}
