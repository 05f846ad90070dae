// The bytes behind an address: loads and stores of any width in a lent slice, little-endian.
//
// A place in memory is an index here; which address stands for it, and who may use it, is the business
// of crate `address_place`.
#![tactic(auto)]

ghost use Rattle.std.specs.Prelude.{◌≡◌, ◌+◌, ◌≤◌, length};
ghost use Rattle.isa.specs.Size.{size_of};
ghost use Rattle.memory.specs.Bytes.{load_of, store_of};
ghost use Rattle.memory.specs.Extend.{extend_of, sign_extended};
ghost use Rattle.memory.specs.Refusal.{memory_refused_of};

use isa::Width;
use word::sign;

// The number at a place, its upper bits zero.
pub fn load(mem: &[u8], at: usize, w: Width) -> u64
    requires { at + size_of w ≤ length mem.now }
    ensures { result ≡ load_of mem.now at (size_of w) }
{
    match w {
        Width::Byte => u64::from(mem[at]),
        Width::Half => half(mem, at),
        Width::Word => u64::from(word(mem, at)),
        Width::Double => double(mem, at),
    }
}

// The four bytes of an instruction word. Of bytes that are named one by one the compiler makes one access, and of an array that is
// cut out of the slice (`first_chunk`) it does not.
pub fn word(mem: &[u8], at: usize) -> u32
    requires { at + 4 ≤ length mem.now }
    ensures { result ≡ load_of mem.now at 4 }
{
    u32::from_le_bytes([mem[at], mem[at + 1], mem[at + 2], mem[at + 3]])
}

fn half(mem: &[u8], at: usize) -> u64
    requires { at + 2 ≤ length mem.now }
    ensures { result ≡ load_of mem.now at 2 }
{
    u64::from(u16::from_le_bytes([mem[at], mem[at + 1]]))
}

fn double(mem: &[u8], at: usize) -> u64
    requires { at + 8 ≤ length mem.now }
    ensures { result ≡ load_of mem.now at 8 }
{
    u64::from_le_bytes([
        mem[at],
        mem[at + 1],
        mem[at + 2],
        mem[at + 3],
        mem[at + 4],
        mem[at + 5],
        mem[at + 6],
        mem[at + 7],
    ])
}

// A loaded number, its sign copied to the bits above.
fn signed(w: Width, v: u64) -> u64
    ensures { result ≡ sign_extended w v }
{
    match w {
        Width::Byte => sign::extend::<8>(v),
        Width::Half => sign::extend::<16>(v),
        Width::Word => sign::extend::<32>(v),
        Width::Double => v,
    }
}

// What a load puts into its register.
pub fn extend(w: Width, sign: bool, v: u64) -> u64
    ensures { result ≡ extend_of w sign v }
{
    if sign {
        return signed(w, v);
    }
    v
}

// The low bytes of a number, put at a place.
pub fn store(mem: &mut [u8], at: usize, w: Width, v: u64)
    requires { at + size_of w ≤ length mem.old }
    ensures { mem.new ≡ store_of mem.old at (size_of w) v }
{
    match w {
        Width::Byte => put::<1>(mem, at, v),
        Width::Half => put::<2>(mem, at, v),
        Width::Word => put::<4>(mem, at, v),
        Width::Double => put::<8>(mem, at, v),
    }
}

fn put<const N: usize>(mem: &mut [u8], at: usize, v: u64)
    requires { (at + N ≤ length mem.old) × (N ≤ 8) }
    ensures { mem.new ≡ store_of mem.old at N v }
{
    mem[at..at + N].copy_from_slice(&v.to_le_bytes()[..N]);
}

// Refusal 2, of memory of this length.
pub fn refused(len: u64) -> bool
    ensures { result ≡ memory_refused_of len }
{
    len == 0 || len % 4096 != 0 || len > 1_048_576
}
