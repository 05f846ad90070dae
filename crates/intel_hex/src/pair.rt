// Hex digits and pairs, by a table of what every byte says, which is made once for a text and lent to all that read it.
ghost use Rattle.std.specs.Prelude.{◌≡◌, ◌+◌, ◌*◌, ◌<◌, ◌≤◌, length, get_or};
ghost use Rattle.intel_hex.specs.Inner.{weight_of, Filled};

// The value of a digit; 0x100000 for any other byte, more than all pairs of a line add up to. That a byte is none is a number and no Option, so that
// no byte is tested by itself (docs/SPEED.md, "No test of a digit").
fn digit(b: u8) -> u64
    ensures { (result ≡ weight_of b) × (result ≤ 0x10_0000) }
{
    match b {
        b'0'..=b'9' => (b - b'0') as u64,
        b'A'..=b'F' => (b - b'A') as u64 + 10,
        b'a'..=b'f' => (b - b'a') as u64 + 10,
        _ => 0x10_0000,
    }
}

// What every byte says as the lower digit of a pair, and as the upper one.
#[derive(Drop)]
pub struct Table {
    low: [u64; 256],
    high: [u64; 256],
    ghost filled: { Filled low high 256 },
}

impl Table {
    pub fn new() -> Table
        ensures { Filled result.low result.high 256 }
    {
        let mut low = [0; 256];
        let mut high = [0; 256];
        for b in 0..256 {
            let d = digit(b as u8);
            low[b] = d;
            high[b] = d * 16;
        }
        Table { low, high }
    }

    // What two bytes say: over 255 where they are no pair of digits.
    pub fn pair(&self, high: u8, low: u8) -> u64
        ensures { (result ≡ weight_of high * 16 + weight_of low) × (result ≤ 0x110_0000) }
    {
        self.high[high as usize] + self.low[low as usize]
    }

    // What the two bytes at a place say.
    pub fn at(&self, text: &[u8], at: usize) -> u64
        requires { at + 1 < length text.now }
        ensures { (result ≡ weight_of (get_or text.now at 0) * 16 + weight_of (get_or text.now (at + 1) 0)) × (result ≤ 0x110_0000) }
    {
        self.pair(text[at], text[at + 1])
    }
}
