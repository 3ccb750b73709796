// What the solver's rows say in 512 lanes at once: the answer, the repaired records and their marks. A row has w words: c of
// coefficients, the constant that all lanes have in common in bit 0 of the next, then eight words with a bit for each lane, and
// any that ride along behind. Total: what does not fit together is refused.
#![tactic(auto)]

ghost use Rattle.std.specs.Prelude.{◌≡◌};
ghost use Rattle.meaning.specs.Answers.{reply};
ghost use Rattle.meaning.specs.Results.{verdict_or_refusal};
ghost use Rattle.lanes.specs.Lanes.{concluding};

mod bad;
mod fill;
mod row;

use meaning::{Refused, Verdict};
use verdict::by_rank;

// Rows with the common constant and the lanes' eight words behind their coefficients.
type Rows<'a> = verdict::rows::Rows<'a, 9>;

// Says what the solver's rows know, over g unknowns: `eqs` the equations, `rank` of them with a pivot, and `vals` the records;
// rows of w words, the first c of them coefficients.
// Answers LaneInconsistent, with the first lane in which an equation has no coefficient and the constant 1; else Unique where
// the rank is g, or Ambiguous with dimension d = g - rank. Each with g, and with m, the number of equations that the caller
// counts. Unique and Ambiguous write 65 bytes a record: the records of 64 bytes end to end, zeros where a coefficient is left,
// then a mark for each, 1 where one is left; later bytes are as found.
// Answers BadShape where fewer than nine words are behind the coefficients, the rank is above g, a slice is no whole number of
// rows, or the output is shorter than 65 bytes a record. BadShape and LaneInconsistent leave the output as found.
// Numbers one by one, as in the definition that its clause names: a struct for them would only be taken apart there.
pub fn conclude(
    c: usize,
    w: usize,
    g: usize,
    m: usize,
    rank: usize,
    eqs: &[u64],
    vals: &[u64],
    out: &mut [u8],
) -> Result<Verdict, Refused>
    ensures { reply out.new (verdict_or_refusal result) ≡ concluding c w g m rank eqs.now vals.now out.old }
{
    let eqs = Rows::new(eqs, c, w)?;
    let vals = Rows::new(vals, c, w)?;
    let verdict = by_rank(g, m, rank)?;
    if out.len() / 65 < vals.len() {
        return Err(Refused::BadShape);
    }
    if let Some(lane) = bad::first(eqs) {
        return Ok(Verdict::LaneInconsistent { lane, g, m });
    }
    fill::write(vals, out);
    Ok(verdict)
}
