// Texts and numbers, written to a buffer behind its first `at` bytes. Each function answers where they end.
ghost use Rattle.std.specs.Prelude.{◌≡◌, ◌+◌, ◌-◌, ◌≤◌, length, replicate};
ghost use Rattle.show.specs.Text.{wide, Written};

use itoa::Buffer;

// The text s.
pub fn put(out: &mut [u8], at: usize, s: &[u8]) -> usize
    requires { at + length s.now ≤ length out.old }
    ensures { Written out.old out.new at result s.now }
{
    let end = at + s.len();
    out[at..end].copy_from_slice(s);
    end
}

// The spaces that make a text of k bytes `width` long.
fn pad(out: &mut [u8], at: usize, k: usize, width: usize) -> usize
    requires { at + (width - k) ≤ length out.old }
    ensures { Written out.old out.new at result (replicate (width - k) 32) }
{
    let end = at + width.saturating_sub(k);
    out[at..end].fill(b' ');
    end
}

// A number, with spaces before it up to `width` places. 20 digits hold any number.
pub fn put_number(out: &mut [u8], at: usize, n: u64, width: usize) -> usize
    requires { (width ≤ 20) × (at + 20 ≤ length out.old) }
    ensures { Written out.old out.new at result (wide width n) × (result ≤ at + 20) }
{
    let mut buffer = Buffer::new();
    let digits = buffer.format(n).as_bytes();
    let start = pad(out, at, digits.len(), width);
    put(out, start, digits)
}
