// The transform, in place, by halves. It is defined for any bytes; over bytes that are bits it is the transform of 01.
#![tactic(auto)]

ghost use Rattle.std.specs.Prelude.{◌≡◌, ◌+◌, ◌^◌, length, eqb};
ghost use Rattle.polar.specs.Bytes.{polar_bytes, transformed, xor_bytes};

// Adds the right half to the left half.
fn fold(left: &mut [u8], right: &[u8])
    requires { length left.old ≡ length right.now }
    ensures { left.new ≡ xor_bytes left.old right.now }
{
    // By an index: what is written through a zip of `iter_mut` is not known afterwards.
    for (i, x) in left.iter_mut().enumerate() {
        *x ^= right[i];
    }
}

// The left half gives v, the right half, which starts in the middle of the block, gives w: v + w, then w.
fn steps(s: &mut [u8], n: usize)
    requires { length s.old ≡ 2 ^ n }
    ensures { s.new ≡ polar_bytes n s.old }
{
    if 0 < n {
        let h = s.len() / 2;
        let (left, right) = s.split_at_mut(h);
        steps(left, n - 1);
        steps(right, n - 1);
        fold(left, right);
    }
}

// Whether a length is 2 to the n.
fn sized(len: usize, n: usize) -> bool
    ensures { result ≡ eqb len (2 ^ n) }
{
    n < 64 && len == 1 << n
}

// Transforms 2 to the n bytes. A slice of any other length is left as it is.
#[tactic(auto, unfolding(crate::specs::Bytes::transformed))]
pub fn transform(s: &mut [u8], n: usize)
    ensures { s.new ≡ transformed n s.old }
{
    if sized(s.len(), n) {
        steps(s, n);
    }
}
