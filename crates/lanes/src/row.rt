// The constants of one row in 64 lanes at a time.
ghost use Rattle.std.specs.Prelude.{◌≡◌, ◌+◌, ◌≤◌, ◌<◌, length};
ghost use Rattle.lanes.specs.Inner.{common_word, LaneWord};

// The constant that all lanes have in common, in each bit.
fn common(x: &[u64], c: usize) -> u64
    requires { c < length x.now }
    ensures { result ≡ common_word c x.now }
{
    if x[c] % 2 == 1 { u64::MAX } else { 0 }
}

// The constants of lanes 64 k to 64 k + 63, the first in bit 0.
pub fn word(x: &[u64], c: usize, k: usize) -> u64
    requires { (c + 9 ≤ length x.now) × (k < 8) }
    ensures { LaneWord c k x.now result }
{
    common(x, c) ^ x[c + 1 + k]
}
