// Whether a system has a solution: a caller of gf2 that is proved from its promise and its laws alone.
// A row is c words of coefficients, then at least one word; the lowest bit of that word is the row's constant.
ghost use Rattle.std.specs.Prelude.{◌≡◌, ◌*◌, ◌<◌};
ghost use Rattle.bits.specs.Rows.{has, rows_of};
ghost use Rattle.gf2.specs.System.{consistent};
ghost use Rattle.solve.specs.Verdicts.{verdict_of};

use std::fmt;
use std::fmt::Formatter;

#[derive(Clone, Copy, PartialEq, Eq, Debug)]
pub enum Verdict {
    Misfit,
    Solvable,
    Not,
}

impl fmt::Display for Verdict {
    fn fmt<W: fmt::Write>(&self, f: &mut Formatter<W>) -> fmt::Result {
        f.write_str(match self {
            Verdict::Misfit => "misfit",
            Verdict::Solvable => "solvable",
            Verdict::Not => "not solvable",
        })
    }
}

// Whether each row has a coefficient or the constant 0.
fn holds(v: &[u64], c: usize, w: usize) -> bool
    requires { c < w }
    ensures { result ≡ consistent c (has (64 * c)) (rows_of w v.now) }
{
    for row in v.chunks_exact(w) {
        if !gf2::led(row, c) && row[c] % 2 == 1 {
            return false;
        }
    }
    true
}

// Whether the equations have a solution. They are reduced on the way.
pub fn solvable(eqs: &mut [u64], c: usize, w: usize) -> Verdict
    ensures { result ≡ verdict_of c w eqs.old }
{
    if w <= c {
        return Verdict::Misfit;
    }
    match gf2::eliminate(eqs, &mut [], c, w) {
        Some(_) if holds(eqs, c, w) => Verdict::Solvable,
        Some(_) => Verdict::Not,
        None => Verdict::Misfit,
    }
}
