// Room for the rows of a strip, N records and N + r equations, by need: clearing room for the largest code costs more than
// answering a short strip.
ghost use Rattle.std.specs.Prelude.{◌≡◌, ◌*◌, ◌≤◌, length};
ghost use Rattle.meaning.specs.Answers.{reply};
ghost use Rattle.meaning.specs.Results.{verdict_or_refusal};
ghost use Rattle.strips.specs.Answering.{equation_words, Roomy, answering};

use crate::solving;
use crate::strip::Strip;
use meaning::{Refused, Verdict, limits};

// Enough for N = 16 and up to 63 unknowns.
const FEW: usize = 270;

// Enough for N = 128 and up to 63 unknowns.
const SOME: usize = 1390;

// Enough for the largest N and the most unknowns.
const MOST: usize = (limits::POSITIONS + system::LONGEST_CHECK)
    * (limits::LARGEST_CEILING / 64 + 10);

// Answers a strip in room of V words for the records' rows, as many for those of u, and as many for the equations.
fn room<const V: usize>(s: &Strip, out: &mut [u8]) -> Result<Verdict, Refused>
    requires roomy { Roomy s.now out.old }
    requires small { V ≤ MOST }
    requires enough { equation_words s.now ≤ V }
    ensures { reply out.new (verdict_or_refusal result) ≡ answering s.now out.old }
{
    let mut vals = [0u64; V];
    let mut us = [0u64; V];
    let mut eqs = [0u64; V];
    let used = s.record_words();
    let more = s.equation_words();
    solving::answer(s, &mut vals[..used], &mut us[..used], &mut eqs[..more], out)
}

// Answers a strip.
pub fn answer(s: &Strip, out: &mut [u8]) -> Result<Verdict, Refused>
    requires { Roomy s.now out.old }
    ensures { reply out.new (verdict_or_refusal result) ≡ answering s.now out.old }
{
    let words = s.equation_words();
    if words <= FEW {
        return room::<FEW>(s, out);
    }
    if words <= SOME {
        return room::<SOME>(s, out);
    }
    room::<MOST>(s, out)
}
