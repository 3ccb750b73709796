// The repair of whole strips end to end: one part of 65N bytes and one record of 16 bytes for each strip, in their places. Every
// public function is total, and over values: the bytes of sheet.bin, of choice.bin (r, then the ceiling), the marks of lost
// records, and the strips of 64N bytes end to end.
#![tactic(auto)]

ghost use Rattle.std.specs.Prelude.{◌≡◌, ℕ, suc, ◌*◌, ◌≤◌, length, drop, ltb, MatchResult};
ghost use mathlib.Core.List.{◌++◌, flatten};
ghost use Rattle.bits.specs.Vectors.{tab};
ghost use Rattle.meaning.specs.Limits.{largest_n, head_bytes};
ghost use Rattle.meaning.specs.Results.{done_or_refusal};
ghost use Rattle.meaning.specs.Stream.{header, n_of, rounded_up, piece_at};
ghost use Rattle.strip_stream.specs.Strips.{strip_bytes, part_bytes, strip_reply, by_case, strip_count, record_count, part_count, headers, parts, leaving_both, answering_strips};

use answers::pieces;
use meaning::{Answer, Refused, limits};
use stream::Terms;

// Bytes of a record of a strip.
const RECORD: usize = 64;

// Bytes that are written for it: the record, and its mark.
const MARKED: usize = RECORD + 1;

// Bytes of a strip.
fn strip_bytes(n: usize) -> usize
    requires { n ≤ suc largest_n }
    ensures { result ≡ strip_bytes n }
{
    RECORD << n
}

// Bytes of what is written for a strip. Apart from strip_bytes: the two names say more in a call than a number would.
fn part_bytes(n: usize) -> usize
    requires { n ≤ suc largest_n }
    ensures { result ≡ part_bytes n }
{
    MARKED << n
}

// How many strips there are, the cut-off last one too. Refused where the sheet or the choice has a wrong length.
fn strips_in(sheet: &[u8], choice: &[u8], input: &[u8]) -> Result<usize, Refused>
    ensures { (alone : ℕ) → MatchResult result (λ k. k ≡ by_case sheet.now choice.now alone alone (strip_count sheet.now input.now)) (λ e. alone ≡ by_case sheet.now choice.now alone alone (strip_count sheet.now input.now)) }
{
    let t = stream::agreed(sheet, choice)?;
    Ok(pieces::count(input.len(), strip_bytes(t.n)))
}

// The number of records that an input is answered with: one for each strip, the cut-off last one too; one alone where the
// sheet or the choice has a wrong length.
pub fn count(sheet: &[u8], choice: &[u8], input: &[u8]) -> usize
    ensures { result ≡ record_count sheet.now choice.now input.now }
{
    strips_in(sheet, choice, input).unwrap_or(1)
}

// The number of parts: as many as strips; none where the sheet or the choice has a wrong length.
pub fn parts(sheet: &[u8], choice: &[u8], input: &[u8]) -> usize
    ensures { result ≡ part_count sheet.now choice.now input.now }
{
    strips_in(sheet, choice, input).unwrap_or(0)
}

// The bytes of a part: 65N, by the sheet's length. With a sheet of wrong length, which gets no part, N counts as 1,024.
pub fn part(sheet: &[u8]) -> usize
    ensures { result ≡ part_bytes (n_of sheet.now) }
{
    part_bytes(stream::n_of(sheet))
}

// Writes the record of an answer to the start of `records`.
fn put(a: Answer, records: &mut [u8])
    requires { head_bytes ≤ length records.old }
    ensures { records.new ≡ header a ++ drop head_bytes records.old }
{
    records[..limits::HEAD].copy_from_slice(&answers::header(a));
}

// Answers one strip, in the room of its part and its record.
fn one(t: Terms, sheet: &[u8], lost: &[u8], strip: &[u8], part: &mut [u8], head: &mut [u8])
    requires { (length part.old ≡ part_bytes t.n) × (length head.old ≡ head_bytes) }
    ensures part_after { part.new ≡ (strip_reply t.n sheet.now t.r t.ceiling lost.now strip.now).bytes }
    ensures head_after { head.new ≡ header (strip_reply t.n sheet.now t.r t.ceiling lost.now strip.now).answer }
{
    part.fill(255);
    let verdict = strips::repair(t.n, sheet, t.r, t.ceiling, strip, lost, part);
    put(Answer::from(verdict), head);
}

// Answers all strips, one after the other. Apart from stream's `words`, which writes one buffer at a turn: handed to a shared
// loop, the parts would be written out of a proof's sight.
fn each(t: Terms, sheet: &[u8], lost: &[u8], input: &[u8], repaired: &mut [u8], records: &mut [u8])
    requires n_le_largest_n { t.n ≤ largest_n }
    requires n_in_bounds { (rounded_up (length input.now) (strip_bytes t.n) * part_bytes t.n ≤ length repaired.old) × (rounded_up (length input.now) (strip_bytes t.n) * head_bytes ≤ length records.old) }
    ensures repaired_after { let k = rounded_up (length input.now) (strip_bytes t.n) in repaired.new ≡ flatten (tab k (λ (i : ℕ). (strip_reply t.n sheet.now t.r t.ceiling lost.now (piece_at (strip_bytes t.n) input.now i)).bytes)) ++ drop (k * part_bytes t.n) repaired.old }
    ensures records_after { let k = rounded_up (length input.now) (strip_bytes t.n) in records.new ≡ flatten (tab k (λ (i : ℕ). header (strip_reply t.n sheet.now t.r t.ceiling lost.now (piece_at (strip_bytes t.n) input.now i)).answer)) ++ drop (k * head_bytes) records.old }
{
    let size = strip_bytes(t.n);
    let room = part_bytes(t.n);
    for (i, strip) in input.chunks(size).enumerate() {
        let to = i * room;
        let at = i * limits::HEAD;
        let part = &mut repaired[to..to + room];
        let head = &mut records[at..at + limits::HEAD];
        one(t, sheet, lost, strip, part, head);
    }
}

// Writes all records and parts, where there is room for them.
fn write(
    sheet: &[u8],
    choice: &[u8],
    lost: &[u8],
    input: &[u8],
    repaired: &mut [u8],
    records: &mut [u8],
)
    requires { (record_count sheet.now choice.now input.now * head_bytes ≤ length records.old) × (part_count sheet.now choice.now input.now * part_bytes (n_of sheet.now) ≤ length repaired.old) }
    ensures repaired_after { repaired.new ≡ flatten (parts sheet.now choice.now lost.now input.now) ++ drop (part_count sheet.now choice.now input.now * part_bytes (n_of sheet.now)) repaired.old }
    ensures records_after { records.new ≡ flatten (headers sheet.now choice.now lost.now input.now) ++ drop (record_count sheet.now choice.now input.now * head_bytes) records.old }
{
    match stream::agreed(sheet, choice) {
        Ok(t) => each(t, sheet, lost, input, repaired, records),
        Err(e) => put(Answer::from(e), records),
    }
}

// Whether `repaired`, of `room` bytes, is too short for the parts.
fn short(sheet: &[u8], choice: &[u8], input: &[u8], room: usize) -> bool
    ensures { result ≡ ltb room (part_count sheet.now choice.now input.now * part_bytes (n_of sheet.now)) }
{
    room / part(sheet) < parts(sheet, choice, input)
}

// Answers a whole input: strip k is what stands from byte 64Nk on, N records of 64 bytes or as much as is left. `lost` marks
// the lost records of every strip, 1 for a lost one. What `strips::repair` leaves, the repaired strip and N marks, stands at
// byte 65Nk of `repaired`, all of it 255 where it leaves its output untouched; its answer stands at byte 16k of `records`: code,
// place, g, m, d, each as two bytes, the low one first, and six zeros. A cut-off last strip is answered too.
// Where the sheet is not 68N bytes long there is one record, of code 11, and no part; else, where the choice is not two bytes,
// one of 13, and no part.
// Later bytes of both stay as found. Refused as ShortOutput (16), before all else, where one of them is too short, which leaves
// both as found.
pub fn answer(
    sheet: &[u8],
    choice: &[u8],
    lost: &[u8],
    input: &[u8],
    repaired: &mut [u8],
    records: &mut [u8],
) -> Result<(), Refused>
    ensures { leaving_both repaired.new records.new (done_or_refusal result) ≡ answering_strips sheet.now choice.now lost.now input.now repaired.old records.old }
{
    if records.len() / limits::HEAD < count(sheet, choice, input) {
        return Err(Refused::ShortOutput);
    }
    if short(sheet, choice, input, repaired.len()) {
        return Err(Refused::ShortOutput);
    }
    write(sheet, choice, lost, input, repaired, records);
    Ok(())
}
