// Room for the rows of a word, N symbols and N + r equations, by need: clearing room for the largest code costs more than
// answering a short word.
ghost use Rattle.std.specs.Prelude.{◌≡◌, ◌+◌, ◌*◌, ◌≤◌, length};
ghost use Rattle.meaning.specs.Answers.{reply};
ghost use Rattle.meaning.specs.Results.{verdict_or_refusal};
ghost use Rattle.decoder.specs.Answering.{symbol_words, Roomy, answering};

use crate::word::{CHECK, Word};
use meaning::{Refused, Verdict, limits};

// Enough for N = 16 and up to 63 unknowns.
const FEW: usize = 32;

// Enough for N = 128 and up to 63 unknowns.
const SOME: usize = 256;

// Enough for N = 512 and up to 63 unknowns, and for N = 256 and up to 191.
const MANY: usize = 1024;

// Enough for the largest N and the most unknowns.
const MOST: usize = limits::POSITIONS * (limits::LARGEST_CEILING / 64 + 2);

// Enough for the equations where FEW, SOME, MANY or MOST are enough for the symbols.
const FEW_EQS: usize = FEW + CHECK;

const SOME_EQS: usize = SOME + CHECK;

const MANY_EQS: usize = MANY + CHECK;

const MOST_EQS: usize = MOST + CHECK;

// Answers a word in room of V words for the symbols' rows and as many for those of u, and of E for the equations.
fn room<const V: usize, const E: usize>(w: &Word, out: &mut [u8]) -> Result<Verdict, Refused>
    requires roomy { Roomy w.now out.old }
    requires enough { symbol_words w.now ≤ V }
    requires more { (V + CHECK ≤ E) × (E ≤ MOST_EQS) }
    ensures { reply out.new (verdict_or_refusal result) ≡ answering w.now out.old }
{
    let mut vals = [0u64; V];
    let mut us = [0u64; V];
    let mut eqs = [0u64; E];
    let used = w.symbol_words();
    let more = w.equation_words();
    crate::answer(w, &mut vals[..used], &mut us[..used], &mut eqs[..more], out)
}

// Answers a word.
pub fn answer(w: &Word, out: &mut [u8]) -> Result<Verdict, Refused>
    requires { Roomy w.now out.old }
    ensures { reply out.new (verdict_or_refusal result) ≡ answering w.now out.old }
{
    let words = w.symbol_words();
    if words <= FEW {
        return room::<FEW, FEW_EQS>(w, out);
    }
    if words <= SOME {
        return room::<SOME, SOME_EQS>(w, out);
    }
    if words <= MANY {
        return room::<MANY, MANY_EQS>(w, out);
    }
    room::<MOST, MOST_EQS>(w, out)
}
