// Step 2, masking: the one place that makes the transformed address.
ghost use Rattle.std.specs.Prelude.{◌≡◌, ◌^◌, ◌<◌, ◌≤◌};
ghost use Rattle.address.specs.Mask.{pmlen_of, mask_of, transformed_of};

use super::Virtual;
use super::control::Control;
use isa::{Kind, Mode};

// PMLEN: the number of masked bits that a PMM means.
pub fn pmlen(pmm: u8) -> u64
    ensures { (result ≡ pmlen_of pmm) × (result ≤ 16) }
{
    match pmm {
        2 => 7,
        3 => 16,
        _ => 0,
    }
}

fn power(k: u64) -> u64
    requires { k < 64 }
    ensures { (result ≡ 2 ^ k) × (0 < result) }
{
    1u64 << k
}

// The address with its upper p bits zero, or under Sv39 copies of bit 63 - p.
pub fn mask(p: u64, paged: bool, a: u64) -> u64
    requires { p ≤ 16 }
    ensures { result ≡ mask_of p paged a }
{
    if p == 0 {
        return a;
    }
    let m = power(64 - p);
    let low = a % m;
    if paged && a / power(63 - p) % 2 == 1 {
        return low + (0xffff_ffff_ffff_ffff - (m - 1));
    }
    low
}

// The transformed address of an access in its effective mode.
pub fn transform(c: Control, m: Mode, k: Kind, a: Virtual) -> Virtual
    ensures { result.0 ≡ transformed_of c m k a.0 }
{
    let pmm = c.pmm(m);
    // Asked first: where no bit is masked, nothing need be known of the rest.
    if pmm == 0 || c.unmasked(k) {
        return a;
    }
    Virtual(mask(pmlen(pmm), c.paged(m), a.0))
}
