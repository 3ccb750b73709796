// Encoding and read-back. Every public function is total: what is faulty is refused with its number,
// in 01's order, and a refusal leaves the output as found.
#![tactic(auto)]

ghost use Rattle.std.specs.Prelude.{◌≡◌, map, ◌^◌, ◌≤◌, length};
ghost use Rattle.bits.specs.Vectors.{bit, tab};
ghost use Rattle.meaning.specs.Transform.{polar};
ghost use Rattle.meaning.specs.Sheet.{rule_at, rules};
ghost use Rattle.meaning.specs.Check.{free_bits, keeps};
ghost use Rattle.meaning.specs.Payload.{encoded};
ghost use Rattle.codec.specs.Ready.{AreBits, Encodable, Whole, Legible, Extracted};
ghost use Rattle.meaning.specs.Answers.{encoding, reading_back, reply, is_one};
ghost use Rattle.meaning.specs.Results.{done_or_refusal, whole_or_refusal};

mod rules;

use meaning::{Refused, limits};

// Writes the codeword of a payload into a block of N symbols. The sheet and the payload are not refused, and `free` has K places.
// Here and below n, the sheet and r come one by one, as in the public calls, which may not change.
fn write_codeword(n: usize, sheet: &[u8], r: usize, payload: &[u8], free: &mut [u8], x: &mut [u8])
    requires { Encodable n sheet.now r payload.now (length free.old) × (length x.old ≡ 2 ^ n) }
    ensures { x.new ≡ map bit (polar n (encoded (rules n sheet.now) r (map is_one payload.now))) }
{
    division::append(payload, r, free);
    rules::place_bits(sheet, free, x);
    polar::transform(x, n);
}

// Writes the codeword of a payload: K - r bytes of 0 or 1, K the number of free positions of the sheet.
// Writes N symbols, later bytes as found; or refuses (as sheet::check_sheet; 14: the payload is not K - r long; 15: the first
// payload bit above 1; 16: the output is shorter than N) and leaves the output as found.
pub fn encode(
    n: usize,
    sheet: &[u8],
    r: usize,
    payload: &[u8],
    out: &mut [u8],
) -> Result<(), Refused>
    ensures { reply out.new (done_or_refusal result) ≡ encoding n sheet.now r payload.now out.old }
{
    let size = sheet.len() / limits::RECORD;
    let m = sheet::count_free(sheet).saturating_sub(r);
    sheet::check_call(n, sheet, r, payload, m, 1, out.len(), size)?;
    let mut free = [0u8; limits::POSITIONS];
    let k = payload.len() + r;
    write_codeword(n, sheet, r, payload, &mut free[..k], &mut out[..size]);
    Ok(())
}

// The vector u behind a word with nothing erased: its transform.
fn vector_behind(n: usize, word: &[u8], u: &mut [u8])
    requires { AreBits word.now × (length word.now ≡ 2 ^ n) × (length u.old ≡ 2 ^ n) }
    ensures { u.new ≡ map bit (polar n (map is_one word.now)) }
{
    u.copy_from_slice(word);
    polar::transform(u, n);
}

// Whether u keeps every frozen rule and the check; takes its free bits out on the way.
fn lawful(sheet: &[u8], r: usize, u: &[u8], free: &mut [u8]) -> bool
    requires { Whole sheet.now r u.now (length free.old) }
    ensures { (result ≡ keeps (tab (length u.now) (rule_at sheet.now)) r (map is_one u.now)) × (free.new ≡ map bit (free_bits (tab (length u.now) (rule_at sheet.now)) (map is_one u.now))) }
{
    rules::take_free(sheet, u, free);
    rules::ruled(sheet, free, u) && division::divides(free, r)
}

// Writes the first m free bits behind a word, if it is a codeword; answers whether it is. `u` has N places, `free` K.
fn extract(
    n: usize,
    sheet: &[u8],
    r: usize,
    word: &[u8],
    m: usize,
    u: &mut [u8],
    free: &mut [u8],
    out: &mut [u8],
) -> bool
    requires legible { Legible n sheet.now r word.now (length free.old) × (length u.old ≡ 2 ^ n) }
    requires m_in_bounds { (m ≤ length free.old) × (m ≤ length out.old) }
    ensures { Extracted n sheet.now r word.now m out.old out.new result }
{
    vector_behind(n, word, u);
    let whole = lawful(sheet, r, u, free);
    if whole {
        out[..m].copy_from_slice(&free[..m]);
    }
    whole
}

// Reads the payload back from a whole codeword: N bytes of 0 or 1.
// Answers true and writes the K - r payload bits, later bytes as found; false where the word is no codeword; or refuses (as
// sheet::check_sheet; 14: the word is not N long; 15: the first symbol above 1; 16: the output is shorter than K - r). Where it
// doesn't answer true it leaves the output as found.
pub fn read_back(
    n: usize,
    sheet: &[u8],
    r: usize,
    word: &[u8],
    out: &mut [u8],
) -> Result<bool, Refused>
    ensures { reply out.new (whole_or_refusal result) ≡ reading_back n sheet.now r word.now out.old }
{
    let size = sheet.len() / limits::RECORD;
    let k = sheet::count_free(sheet);
    let m = k.saturating_sub(r);
    sheet::check_call(n, sheet, r, word, size, 1, out.len(), m)?;
    let mut u = [0u8; limits::POSITIONS];
    let mut free = [0u8; limits::POSITIONS];
    let whole = extract(n, sheet, r, word, m, &mut u[..size], &mut free[..k], out);
    Ok(whole)
}
