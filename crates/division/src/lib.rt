// The check: division by the check polynomial, one bit at a time. The remainder so far is a word of r bits, D^(r-1) highest.
// A byte counts as the bit 1 where it is 1, and as 0 otherwise.
#![tactic(auto)]

ghost use Rattle.std.specs.Prelude.{◌≡◌, Bool, true, false, List, map, ◌++◌, ◌+◌, ◌≤◌, ◌<◌, ◌^◌, length, replicate, MatchOption};
ghost use Rattle.meaning.specs.Answers.{is_one};
ghost use Rattle.meaning.specs.Limits.{leads};
ghost use Rattle.meaning.specs.Check.{poly};
ghost use Rattle.meaning.specs.Payload.{remainder};
ghost use Rattle.division.specs.Division.{poly_word, to_bits, Shifted, Fed, listed, dividing, appending};
ghost use Rattle.bits.specs.Vectors.{bit};

// A check: its length r, and its polynomial as a word, D^r included.
#[derive(Clone, Copy)]
struct Check {
    length: usize,
    polynomial: u64,
    ghost known: { listed length ≡ true },
    ghost word: { polynomial ≡ poly_word length },
}

impl Check {
    // The check of length r, if there is one.
    #[tactic(auto, unfolding(crate::specs::Division::listed, crate::specs::Division::poly_word))]
    fn of_length(r: usize) -> Option<Check>
        ensures { MatchOption result (listed r ≡ false) (λ check. check.length ≡ r) }
    {
        let polynomial = match r {
            0 => 1,
            6 => 97,
            11 => 3617,
            _ => return None,
        };
        Some(Check {
            length: r,
            polynomial,
        })
    }

    // A remainder is below this.
    fn limit(self) -> u64
        ensures { result ≡ 2 ^ self.length }
    {
        1 << self.length
    }

    // The remainder once one more bit is shifted in: where a 1 goes out, the polynomial is subtracted.
    fn shifted(self, s: u64, b: bool) -> u64
        requires { s < 2 ^ self.length }
        ensures { Shifted self.length s b result }
    {
        let t = s * 2 + u64::from(b);
        if t >= self.limit() {
            t ^ self.polynomial
        } else {
            t
        }
    }

    // The remainder of the check's sequence that ends in these bits, r ones in front: they are the remainder at the start.
    fn feed(self, bits: &[u8]) -> u64
        ensures { Fed self.length (map is_one bits.now) result }
    {
        let limit = self.limit();
        let mut s: u64 = limit - 1;
        for b in bits {
            s = self.shifted(s, *b == 1);
        }
        s
    }

    // The remainder after shifting by r: r zeros more are shifted in.
    fn flush(self, start: u64) -> u64
        requires { start < 2 ^ self.length }
        ensures { (v : List Bool) → Fed self.length v start → Fed self.length (v ++ replicate self.length false) result }
    {
        let mut s = start;
        for i in 0..self.length {
            s = self.shifted(s, false);
        }
        s
    }

    // Bytes, and behind them their r check bits.
    fn attach(self, bits: &[u8], out: &mut [u8])
        requires { length out.old ≡ length bits.now + self.length }
        ensures { out.new ≡ bits.now ++ map bit (remainder (poly self.length) (leads self.length ++ map is_one bits.now)) }
    {
        let (payload, check) = out.split_at_mut(bits.len());
        payload.copy_from_slice(bits);
        spell(self.flush(self.feed(bits)), check);
    }
}

// Writes the bits of a remainder, highest first.
fn spell(s: u64, out: &mut [u8])
    requires { length out.old ≤ 64 }
    ensures { out.new ≡ map bit (to_bits (length out.old) s) }
{
    let r = out.len();
    for (i, b) in out.iter_mut().enumerate() {
        *b = ((s >> (r - 1 - i)) % 2) as u8;
    }
}

// Whether the check polynomial of length r divides the check's sequence that ends in these bits.
// False where r is not 0, 6 or 11.
pub fn divides(bits: &[u8], r: usize) -> bool
    ensures { result ≡ dividing r bits.now }
{
    match Check::of_length(r) {
        Some(check) => check.feed(bits) == 0,
        None => false,
    }
}

// Writes these bytes and then their r check bits. `out` is left as it is unless r is 0, 6 or 11 and `out` has just the room.
pub fn append(bits: &[u8], r: usize, out: &mut [u8])
    ensures { out.new ≡ appending r bits.now out.old }
{
    if let Some(check) = Check::of_length(r) {
        if out.len() == bits.len() + check.length {
            check.attach(bits, out);
        }
    }
}
