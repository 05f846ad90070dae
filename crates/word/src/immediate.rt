// The immediates of the manual's I, S, B, U and J formats, each sign-extended to 64 bits. The bits are
// gathered from where the format scatters them; the topmost gathered bit is the sign.
ghost use Rattle.std.specs.Prelude.{◌≡◌};
ghost use Rattle.word.specs.Immediate.{imm_i_of, imm_s_of, imm_b_of, imm_u_of, imm_j_of};

use super::sign::extend;

pub fn imm_i(w: u32) -> u64
    ensures { result ≡ imm_i_of w }
{
    extend::<12>(u64::from(w / 1048576 % 4096))
}

pub fn imm_s(w: u32) -> u64
    ensures { result ≡ imm_s_of w }
{
    extend::<12>(u64::from(w / 33554432 % 128 * 32 + w / 128 % 32))
}

pub fn imm_b(w: u32) -> u64
    ensures { result ≡ imm_b_of w }
{
    let high = w / 2147483648 % 2 * 4096 + w / 128 % 2 * 2048;
    extend::<13>(u64::from(high + w / 33554432 % 64 * 32 + w / 256 % 16 * 2))
}

pub fn imm_u(w: u32) -> u64
    ensures { result ≡ imm_u_of w }
{
    extend::<32>(u64::from(w / 4096 % 1048576 * 4096))
}

pub fn imm_j(w: u32) -> u64
    ensures { result ≡ imm_j_of w }
{
    let high = w / 2147483648 % 2 * 1048576 + w / 4096 % 256 * 4096;
    extend::<21>(u64::from(high + w / 1048576 % 2 * 2048 + w / 2097152 % 1024 * 2))
}
