// What one row says: c words of coefficients, then the constant in bit 0 of word c.
ghost use Rattle.std.specs.Prelude.{◌≡◌, true, ◌*◌, ◌≤◌, ◌<◌, length, replicate};
ghost use Rattle.bits.specs.Vectors.{bit};
ghost use Rattle.gf2.specs.System.{dot};
ghost use Rattle.verdict.specs.OffRows.{row_settled, row_first, row_last};
ghost use Rattle.verdict.specs.Words.{agreeable};

// 1 if the row has an odd number of coefficients, else 0.
fn odd(x: &[u64], c: usize) -> u8
    requires { c ≤ length x.now }
    ensures { result ≡ bit (dot 0 x.now (replicate (64 * c) true)) }
{
    bits::parity(x[..c].iter().fold(0, |sum, k| sum ^ *k), u64::MAX)
}

// The row's value where all unknowns are 0: its constant.
pub fn first(x: &[u64], c: usize) -> u8
    requires { c < length x.now }
    ensures { result ≡ row_first c x.now }
{
    (x[c] % 2) as u8
}

// The row's value where all unknowns are 1.
pub fn last(x: &[u64], c: usize) -> u8
    requires { c < length x.now }
    ensures { result ≡ row_last c x.now }
{
    odd(x, c) ^ first(x, c)
}

// The row's value if it has no coefficient, else 2.
pub fn settled(x: &[u64], c: usize) -> u8
    requires { c < length x.now }
    ensures { result ≡ row_settled c x.now }
{
    if gf2::led(x, c) { 2 } else { first(x, c) }
}

// Whether the row has a coefficient or the constant 0.
pub fn agreeable(x: &[u64], c: usize) -> bool
    requires { c < length x.now }
    ensures { result ≡ agreeable c x.now }
{
    gf2::led(x, c) || first(x, c) == 0
}
