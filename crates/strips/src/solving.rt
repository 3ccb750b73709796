// From the records to the answer, on rows of words: of coefficients, one for the constant of all lanes, eight for the lanes.
ghost use Rattle.std.specs.Prelude.{◌≡◌, ◌*◌, ◌≤◌, length, replicate};
ghost use Rattle.meaning.specs.Answers.{reply};
ghost use Rattle.meaning.specs.Results.{verdict_or_refusal};
ghost use Rattle.strips.specs.Answering.{record_words, equation_words, Roomy, answering};

use crate::place;
use crate::strip::Strip;
use meaning::{Refused, Verdict};
use system::Solved;

// Answers a strip in slices of N, N and N + r rows; those of `vals` are 0.
pub fn answer(
    s: &Strip,
    vals: &mut [u64],
    us: &mut [u64],
    eqs: &mut [u64],
    out: &mut [u8],
) -> Result<Verdict, Refused>
    requires roomy { Roomy s.now out.old }
    requires zeros { vals.old ≡ replicate (record_words s.now) 0 }
    requires rows { (length us.old ≡ record_words s.now) × (length eqs.old ≡ equation_words s.now) }
    ensures { reply out.new (verdict_or_refusal result) ≡ answering s.now out.old }
{
    let t = s.terms;
    place::place(s, vals);
    let Solved { g, m, rank } = system::solve(s.sheet, s.lost, t, vals, us, eqs)?;
    let used = m * t.words;
    lanes::conclude(t.coeffs, t.words, g, m, rank, &eqs[..used], vals, out)
}
