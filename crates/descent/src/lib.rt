// The decoder's descent: rows of a word's symbols, of u and of the equations, over any number of words to a row.
#![tactic(auto)]

ghost use Rattle.std.specs.Prelude.{◌≡◌};
ghost use Rattle.descent.specs.Descending.{descended, descending, refused};

use leaf::Shape;
use meaning::Refused;

mod block;
mod leaf;
mod limits;
mod word;

// The most words of a row.
pub const WIDEST: usize = 65536;

// Why nothing was done. Nothing was changed.
#[derive(Clone, Copy)]
pub enum Stop {
    // What was handed over does not fit together.
    Misfit,
    // There are g unknowns, more than were allowed.
    Over { g: usize },
}

// What stops a descent, as a refusal of an engine's call.
impl From<Stop> for Refused {
    ghost from_gives = { λ s r. r ≡ refused s };

    fn from(s: Stop) -> Refused {
        match s {
            Stop::Misfit => Refused::BadShape,
            Stop::Over { g } => Refused::TooMany { g },
        }
    }
}

// What a descent found: g unknowns and m equations.
#[derive(Clone, Copy)]
pub struct Found {
    pub g: usize,
    pub m: usize,
}

// Decodes a word of N = 2 to the n symbols under the rules of a sheet of N records, by halves. A symbol is known where `word`
// has 0 or 1, and its row then stands in `vals`: any row of w words. It is erased where `word` has more.
// A row has w words, at most WIDEST: c words of coefficients, unknown k at bit k mod 64 of word k div 64, then the constant at
// bit 0 of word c, then words that ride along. The unknowns are the open free positions, numbered from the first.
// Answers the numbers of unknowns and of equations. Then `vals` holds the N symbols' rows, `us` the N rows of u, and
// `eqs` the equations, each to be 0, followed by zeros.
// Answers Err(Over), and changes nothing, where there are more than `most` unknowns.
// Answers Err(Misfit), and changes nothing, unless n is at most limits::LARGEST_N, the sheet has N records, the word N symbols,
// c is below w, `most` is at most 64 c, `vals` and `us` have N w words each, and `eqs` has at least as many.
// Numbers one by one, as in the definition that its clause names: a struct for them would only be taken apart there.
pub fn descend(
    n: usize,
    sheet: &[u8],
    word: &[u8],
    most: usize,
    c: usize,
    w: usize,
    vals: &mut [u64],
    us: &mut [u64],
    eqs: &mut [u64],
) -> Result<Found, Stop>
    ensures { descended result vals.new us.new eqs.new ≡ descending n sheet.now word.now most c w vals.old us.old eqs.old }
{
    if !limits::fits(
        n,
        sheet.len(),
        word.len(),
        most,
        c,
        w,
        vals.len(),
        us.len(),
        eqs.len(),
    ) {
        return Err(Stop::Misfit);
    }
    let g = counting::unknowns(n, sheet, word);
    if most < g {
        return Err(Stop::Over { g });
    }
    let shape = Shape {
        coeffs: c,
        words: w,
    };
    let m = word::run(n, sheet, word, shape, vals, us, eqs);
    Ok(Found { g, m })
}
