// Descent, check and solver behind one promise, on rows of any width: what the losses and the known symbols' rows make of a
// word. Every engine stands on it.
#![tactic(auto)]

ghost use Rattle.std.specs.Prelude.{◌≡◌, true, length};
ghost use Rattle.system.specs.Solving.{leaves, solving, spaced, Settling, settled};

mod limits;

use descent::Found;
pub use descent::Stop;

// The longest check.
pub const LONGEST_CHECK: usize = 11;

// What is asked: N = 2 to the n symbols, a check of length r, at most `most` unknowns, and rows of `words` words, the first
// `coeffs` of them coefficients.
#[derive(Clone, Copy)]
pub struct Terms {
    pub n: usize,
    pub r: usize,
    pub most: usize,
    pub coeffs: usize,
    pub words: usize,
}

// What was solved: g unknowns and m equations, `rank` of them with a pivot.
#[derive(Clone, Copy)]
pub struct Solved {
    pub g: usize,
    pub m: usize,
    pub rank: usize,
}

// Puts the check's equations behind those of a descent and solves them all.
fn settle(
    t: Terms,
    sheet: &[u8],
    found: Found,
    vals: &mut [u64],
    us: &[u64],
    eqs: &mut [u64],
) -> Result<Solved, Stop>
    requires { Settling t sheet.now found.m vals.old us.now eqs.old }
    ensures { leaves result vals.new us.now eqs.new ≡ settled t sheet.now found vals.old us.now eqs.old }
{
    let Found { g, m } = found;
    checks::check_rows(t.n, sheet, t.r, t.coeffs, t.words, us, m, eqs);
    let all = m + t.r;
    let rows = &mut eqs[..all * t.words];
    let rank = gf2::eliminate(rows, vals, t.coeffs, t.words).ok_or(Stop::Misfit)?;
    Ok(Solved { g, m: all, rank })
}

// Descends and settles, where there is room for the check's equations.
fn run(
    sheet: &[u8],
    word: &[u8],
    t: Terms,
    vals: &mut [u64],
    us: &mut [u64],
    eqs: &mut [u64],
) -> Result<Solved, Stop>
    requires { spaced t.r t.words (length vals.old) (length eqs.old) ≡ true }
    ensures { leaves result vals.new us.new eqs.new ≡ solving t.n t.r t.most t.coeffs t.words sheet.now word.now vals.old us.old eqs.old }
{
    let found = descent::descend(t.n, sheet, word, t.most, t.coeffs, t.words, vals, us, eqs)?;
    settle(t, sheet, found, vals, us, eqs)
}

// Decodes a word of N symbols under the rules of a sheet of N records by halves, and solves the equations that this leaves.
// A symbol is known where `word` has 0 or 1, and its row then stands in `vals`, row j for symbol j: any rows of `words` words.
// It is erased where `word` has more. Unknown k is bit k mod 64 of word k div 64 of a row, and the constant is bit 0 of word
// `coeffs`; words behind it ride along. The unknowns are the open free positions, numbered from the first.
// Answers g unknowns, m equations (those of closed frozen positions and r of the check) and their rank. Then `eqs`
// starts with the m equations, reduced, and zeros follow; `vals` holds the symbols' rows, reduced by them; `us` the rows of u.
// Answers Err(Over), and changes nothing, where there are more than `most` unknowns.
// Answers Err(Misfit), and changes nothing, unless n is at most limits::LARGEST_N, the sheet has N records, the word N symbols,
// r is 0, 6 or 11, `coeffs` is below `words`, `words` at most descent::WIDEST, `most` at most 64 `coeffs`, `vals` and `us` have N
// rows each, and `eqs` has N + r.
pub fn solve(
    sheet: &[u8],
    word: &[u8],
    t: Terms,
    vals: &mut [u64],
    us: &mut [u64],
    eqs: &mut [u64],
) -> Result<Solved, Stop>
    ensures { leaves result vals.new us.new eqs.new ≡ solving t.n t.r t.most t.coeffs t.words sheet.now word.now vals.old us.old eqs.old }
{
    if !limits::spaced(t.r, t.words, vals.len(), eqs.len()) {
        return Err(Stop::Misfit);
    }
    run(sheet, word, t, vals, us, eqs)
}
