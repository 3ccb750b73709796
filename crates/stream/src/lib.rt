// The answers to a whole input: one record of 1,552 bytes for each word, in its place. Every public function is total, and over
// values: the bytes of sheet.bin, of choice.bin (r, then the ceiling) and of the words end to end.
#![tactic(auto)]

ghost use Rattle.std.specs.Prelude.{◌≡◌, ℕ, ◌*◌, ◌^◌, ◌≤◌, length, drop};
ghost use mathlib.Core.List.{◌++◌, flatten};
ghost use Rattle.bits.specs.Vectors.{tab};
ghost use Rattle.meaning.specs.Limits.{largest_n};
ghost use Rattle.meaning.specs.Answers.{reply};
ghost use Rattle.meaning.specs.Results.{done_or_refusal};
ghost use Rattle.meaning.specs.Stream.{answer_bytes, answer_record, n_of, rounded_up, word_at, records, streaming};
ghost use Rattle.stream.specs.Agreement.{agreement};

mod record;

use answers::pieces;
use meaning::{Refused, limits};

// What an input is answered by: n, the length of the check, and the ceiling. The sheet stays beside them: three numbers are
// copied, and need no lifetime.
#[derive(Clone, Copy)]
pub struct Terms {
    pub n: usize,
    pub r: usize,
    pub ceiling: usize,
}

// The n of a sheet of N = 2 to the n records, from its length; 10 where no n up to 9 has such a sheet: a
// number, as README says and since it cannot fail. `agreed` is what can.
pub fn n_of(sheet: &[u8]) -> usize
    ensures { result ≡ n_of sheet.now }
{
    for n in 0..=limits::LARGEST_N {
        if sheet::recorded(n, sheet.len()) {
            return n;
        }
    }
    limits::LARGEST_N + 1
}

// The terms that a sheet and a choice set. Refused where the sheet is not 68N bytes long (11); else where the choice is not two
// bytes (13), whatever the sheet holds.
pub fn agreed(sheet: &[u8], choice: &[u8]) -> Result<Terms, Refused>
    ensures { result ≡ agreement sheet.now choice.now }
{
    let n = n_of(sheet);
    if limits::LARGEST_N < n {
        return Err(Refused::BadShape);
    }
    if choice.len() != 2 {
        return Err(Refused::BadCheck);
    }
    Ok(Terms {
        n,
        r: usize::from(choice[0]),
        ceiling: usize::from(choice[1]),
    })
}

// The number of records that an input is answered with: one for each word, the cut-off last one too; one alone where the
// sheet or the choice has a wrong length.
pub fn records(sheet: &[u8], choice: &[u8], input: &[u8]) -> usize
    ensures { result ≡ length (records sheet.now choice.now input.now) }
{
    match agreed(sheet, choice) {
        Ok(t) => pieces::count(input.len(), sheet::size(t.n)),
        Err(_) => 1,
    }
}

// Writes the records of all words, one after the other.
fn words(t: Terms, sheet: &[u8], input: &[u8], out: &mut [u8])
    requires { (t.n ≤ largest_n) × (rounded_up (length input.now) (2 ^ t.n) * answer_bytes ≤ length out.old) }
    ensures { out.new ≡ flatten (tab (rounded_up (length input.now) (2 ^ t.n)) (λ (i : ℕ). answer_record t.n sheet.now t.r t.ceiling (word_at t.n input.now i))) ++ drop (rounded_up (length input.now) (2 ^ t.n) * answer_bytes) out.old }
{
    let size = sheet::size(t.n);
    for (i, word) in input.chunks(size).enumerate() {
        // By its place: of what chunks_exact_mut lends a proof learns only the length.
        let to = i * limits::ANSWER;
        let place = &mut out[to..to + limits::ANSWER];
        record::answer(t, sheet, word, place);
    }
}

// Answers a whole input: word k is what stands from byte kN on, N symbols or as many as are left, and its record stands at
// byte 1,552k of the output: code, place, g, m, d, each as two bytes, the low one first, six zeros, then three strips of 512
// bytes, the places past N filled with 255. Where decoding leaves its output untouched, all of the strips is 255. A cut-off
// last word has its record too.
// Where the sheet is not 68N bytes long there is one record, of code 11; else, where the choice is not two bytes, one of 13,
// whatever the sheet holds.
// Later bytes stay as found. Refused as ShortOutput (16), before all else, where the output is too short for the records,
// which leaves it as found.
pub fn answer(sheet: &[u8], choice: &[u8], input: &[u8], out: &mut [u8]) -> Result<(), Refused>
    ensures { reply out.new (done_or_refusal result) ≡ streaming sheet.now choice.now input.now out.old }
{
    let k = records(sheet, choice, input);
    if out.len() / limits::ANSWER < k {
        return Err(Refused::ShortOutput);
    }
    match agreed(sheet, choice) {
        Ok(t) => words(t, sheet, input, out),
        Err(e) => record::refuse(e, &mut out[..limits::ANSWER]),
    }
    Ok(())
}
