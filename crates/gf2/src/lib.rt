// Gauss-Jordan elimination over GF(2) on packed rows of any width.
//
// A row is w words of 64 bits. Its first c words are coefficients: bit b % 64 of word b / 64 is that of unknown b. The
// other words ride along: a constant, many constants at once, or a mark of the equations that a row was made of.
// What a caller may conclude stands in proofs/, which Lib.antt lists.
#![tactic(auto)]

ghost use Rattle.std.specs.Prelude.{◌≡◌};
ghost use Rattle.gf2.specs.Solve.{done, solved};
ghost use Rattle.gf2.specs.System.{led};

mod sweep;

// Solves the equations in `eqs` as far as they go. Each in turn, the equation that still has a coefficient takes its
// highest one, its pivot, out of every other equation and every row of `rest`, by adding itself to the rows that have it.
// Afterwards a pivot stands in its own equation alone, and an equation with no pivot has no coefficient left.
// `rest` holds rows to reduce that are no equations; it may be empty, and so may `eqs`.
// Answers how many equations have a pivot, or None, and changes nothing, where w is 0, c is above w, or `eqs` or `rest`
// is no whole number of rows.
pub fn eliminate(eqs: &mut [u64], rest: &mut [u64], c: usize, w: usize) -> Option<usize>
    ensures { done eqs.new rest.new result ≡ solved c w eqs.old rest.old }
{
    if w == 0 || w < c || eqs.len() % w != 0 || rest.len() % w != 0 {
        return None;
    }
    Some(sweep::run(eqs, rest, c, w))
}

// Whether a row has a coefficient: one of its first c words is not 0. Words behind its last count as 0.
pub fn led(x: &[u64], c: usize) -> bool
    ensures { result ≡ led c x.now }
{
    x.iter().take(c).any(|word| *word != 0)
}
