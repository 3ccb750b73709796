// The verdict, read off the rows that the solver leaves: the answer and the strips. A row has w words: c of coefficients, the
// constant in bit 0 of the next, and any that ride along behind. Total: what does not fit together is refused.
#![tactic(auto)]

ghost use Rattle.std.specs.Prelude.{◌≡◌, ℕ, ◌-◌, ◌*◌, ◌/◌, ◌≤◌, ◌<◌, ◌++◌, length, drop, MatchResult};
ghost use Rattle.bits.specs.Rows.{rows_of};
ghost use Rattle.gf2.specs.System.{consistent};
ghost use Rattle.meaning.specs.Answers.{reply};
ghost use Rattle.meaning.specs.Results.{verdict, verdict_or_refusal};
ghost use Rattle.meaning.specs.declared.Refused.TheVariants.{BadShape};
ghost use Rattle.verdict.specs.OffRows.{constant, row_strips};
ghost use Rattle.verdict.specs.Concluding.{concluding};
ghost use Rattle.verdict.specs.Whole.{by_dimension};

mod row;
pub mod rows;

use meaning::{Refused, Verdict};
use rows::Rows;

// The verdict on g unknowns, of which `rank` have a pivot, where the equations are sound: Unique where all have one, else
// Ambiguous with dimension d = g - rank. BadShape where the rank is above g.
pub fn by_rank(g: usize, m: usize, rank: usize) -> Result<Verdict, Refused>
    ensures { MatchResult result (λ v. (rank ≤ g) × (verdict v ≡ by_dimension g m (g - rank))) (λ e. (e ≡ BadShape) × (g < rank)) }
{
    match g.checked_sub(rank) {
        None => Err(Refused::BadShape),
        Some(0) => Ok(Verdict::Unique { g, m }),
        Some(d) => Ok(Verdict::Ambiguous { g, m, d }),
    }
}

// Whether no equation has lost its coefficients and kept the constant 1.
fn sound(eqs: Rows<1>) -> bool
    ensures { result ≡ consistent eqs.entry.c (constant eqs.entry.c) (rows_of eqs.entry.w eqs.entry.words.now) }
{
    eqs.iter().all(|x| row::agreeable(x, eqs.c))
}

// Writes the settled strip, the first and the last candidate; later bytes are as found.
fn write(vals: Rows<1>, out: &mut [u8])
    requires { 3 * (length vals.words.now / vals.w) ≤ length out.old }
    ensures { let v = vals.entry in out.new ≡ row_strips v.c (rows_of v.w v.words.now) ++ drop (3 * (length v.words.now / v.w)) out.old }
{
    let n = vals.len();
    let c = vals.c;
    let (settled, rest) = out.split_at_mut(n);
    let (first, rest) = rest.split_at_mut(n);
    vals.write(settled, |x| row::settled(x, c));
    vals.write(first, |x| row::first(x, c));
    vals.write(&mut rest[..n], |x| row::last(x, c));
}

// Says what the solver's rows know, over g unknowns: `eqs` the equations, `rank` of them with a pivot, and `vals` the symbols;
// rows of w words, the first c of them coefficients.
// Answers Inconsistent where an equation has no coefficient and the constant 1; else Unique where the rank is g, or Ambiguous
// with dimension d = g - rank. Each with g, and with m, the number of equations that the caller counts. Unique and Ambiguous
// write 3 bytes a symbol: the settled strip (2 where a coefficient is left), the symbols where all unknowns are 0, and those
// where all are 1; later bytes are as found.
// Answers BadShape where no word is behind the coefficients, the rank is above g, a slice is no whole number of rows, or the
// output is shorter than 3 bytes a symbol. BadShape and Inconsistent leave the output as found.
// Numbers one by one, as in the definition that its clause names: a struct for them would only be taken apart there.
pub fn conclude(
    c: usize,
    w: usize,
    g: usize,
    m: usize,
    rank: usize,
    eqs: &[u64],
    vals: &[u64],
    out: &mut [u8],
) -> Result<Verdict, Refused>
    ensures { reply out.new (verdict_or_refusal result) ≡ concluding c w g m rank eqs.now vals.now out.old }
{
    let eqs = Rows::new(eqs, c, w)?;
    let vals = Rows::new(vals, c, w)?;
    let verdict = by_rank(g, m, rank)?;
    if out.len() / 3 < vals.len() {
        return Err(Refused::BadShape);
    }
    if !sound(eqs) {
        return Ok(Verdict::Inconsistent { g, m });
    }
    write(vals, out);
    Ok(verdict)
}
