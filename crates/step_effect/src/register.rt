// The registers by number.
ghost use Rattle.std.specs.Prelude.{◌≡◌};
ghost use Rattle.step_effect.specs.Register.{reg_of, put_of};

pub fn reg(x: &[u64; 32], r: u8) -> u64
    ensures { result ≡ reg_of x.now r }
{
    let k = (r % 32) as usize;
    x[k]
}

// Register rd becomes v, and register 0 stays 0.
pub fn put(x: &mut [u64; 32], rd: u8, v: u64)
    ensures { x.new ≡ put_of rd v x.old }
{
    let k = (rd % 32) as usize;
    x[k] = v;
    x[0] = 0;
}
