// The decoder: what can be known of a word with erasures. It is total: what is faulty is refused with its number, in 01's
// order, and a refusal leaves the output as found.
#![tactic(auto)]

ghost use Rattle.std.specs.Prelude.{◌≡◌, ◌*◌, ◌≤◌, length, replicate};
ghost use Rattle.meaning.specs.Answers.{fault, form_refusals, reply, decoding};
ghost use Rattle.meaning.specs.Results.{done_or_refusal, verdict_or_refusal};
ghost use Rattle.decoder.specs.Answering.{symbol_words, equation_words, Roomy, answering};

mod place;
mod rooms;
mod word;

use meaning::{Refused, Verdict, limits};
use system::{Solved, Terms};
use word::Word;

// Whether decoding is refused for a fault of form: the sheet's, the word's, the output's or the ceiling's.
fn check(
    n: usize,
    sheet: &[u8],
    r: usize,
    ceiling: usize,
    word: &[u8],
    room: usize,
) -> Result<(), Refused>
    ensures { done_or_refusal result ≡ fault (form_refusals n sheet.now r ceiling word.now room) }
{
    let size = sheet.len() / limits::RECORD;
    sheet::check_call(n, sheet, r, word, size, 2, room, 3 * size)?;
    if limits::LARGEST_CEILING < ceiling {
        return Err(Refused::BadCeiling);
    }
    Ok(())
}

// Answers a word in slices of N, N and N + r rows; those of `vals` are 0.
fn answer(
    w: &Word,
    vals: &mut [u64],
    us: &mut [u64],
    eqs: &mut [u64],
    out: &mut [u8],
) -> Result<Verdict, Refused>
    requires roomy { Roomy w.now out.old }
    requires zeros { vals.old ≡ replicate (symbol_words w.now) 0 }
    requires rows { (length us.old ≡ symbol_words w.now) × (length eqs.old ≡ equation_words w.now) }
    ensures { reply out.new (verdict_or_refusal result) ≡ answering w.now out.old }
{
    let t = w.terms;
    place::place(w, vals);
    let Solved { g, m, rank } = system::solve(w.sheet, w.symbols, t, vals, us, eqs)?;
    let used = m * t.words;
    verdict::conclude(t.coeffs, t.words, g, m, rank, &eqs[..used], vals, out)
}

// Says what can be known of a word of N symbols: 0, 1, or 2 where the symbol is erased.
// Answers Unique (0), Ambiguous (1) or Inconsistent (2), with g unknowns, m equations and dimension d. Unique and Ambiguous
// write 3N bytes: the settled strip (2 where candidates differ), the first candidate and the last; later bytes are as found.
// Refuses (as sheet::check_sheet; 14: the word is not N long; 15: the first symbol above 2; 16: the output is shorter
// than 3N; 17: the ceiling is above 255; 18: g is above the ceiling). Inconsistent and refusals leave the output as found.
// Numbers one by one: the call is README's.
pub fn decode(
    n: usize,
    sheet: &[u8],
    r: usize,
    ceiling: usize,
    word: &[u8],
    out: &mut [u8],
) -> Result<Verdict, Refused>
    ensures { reply out.new (verdict_or_refusal result) ≡ decoding n sheet.now r ceiling word.now out.old }
{
    check(n, sheet, r, ceiling, word, out.len())?;
    let g = counting::unknowns(n, sheet, word);
    if ceiling < g {
        return Err(Refused::TooMany { g });
    }
    let coeffs = g / 64 + 1;
    let w = Word {
        sheet,
        symbols: word,
        terms: Terms {
            n,
            r,
            most: g,
            coeffs,
            words: coeffs + 1,
        },
    };
    rooms::answer(&w, out)
}
