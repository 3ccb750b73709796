// The one reader of code sheets: where their bytes lie, the numbers that n and r stand for, the checks of a sheet and of a word
// that stand before every other call, in 01's order, and the count of a sheet's free positions. Every function here is total.
#![tactic(auto)]

ghost use Rattle.std.specs.Prelude.{◌≡◌, ◌/◌, length, eqb, ltb};
ghost use Rattle.std.specs.List.{position};
ghost use Rattle.bits.specs.Vectors.{tab};
ghost use Rattle.meaning.specs.Limits.{record_bytes};
ghost use Rattle.meaning.specs.Sheet.{byte, rule_at, frees};
ghost use Rattle.meaning.specs.Answers.{check_length, fault, call_refusals, checking, wording};
ghost use Rattle.meaning.specs.Results.{done_or_refusal};
ghost use Rattle.sheet.specs.Masks.{WordOf};
ghost use Rattle.sheet.specs.Shapes.{positions, recorded, shaped};

mod faults;

use bits::octets;
use meaning::{Refused, limits};

// Words of a record's mask.
pub const MASK_WORDS: usize = limits::MASK / 8;

// Byte k of record i, also where the sheet has not all of that record, or k is none of its bytes.
fn any_byte(sheet: &[u8], i: usize, k: usize) -> u8
    ensures { result ≡ byte sheet.now i k }
{
    if sheet.len() / limits::RECORD < i {
        return 0;
    }
    let from = i * limits::RECORD;
    if sheet.len() - from <= k {
        return 0;
    }
    sheet[from + k]
}

// Byte k of record i: the one at 68 i + k. 0 where the sheet has no such byte.
pub fn byte(sheet: &[u8], i: usize, k: usize) -> u8
    ensures { result ≡ byte sheet.now i k }
{
    if limits::RECORD <= k {
        return any_byte(sheet, i, k);
    }
    if sheet.len() / limits::RECORD <= i {
        return any_byte(sheet, i, k);
    }
    sheet[i * limits::RECORD + k]
}

// Whether position i is free: byte 0 of its record is 0, also where there is none.
pub fn is_free(sheet: &[u8], i: usize) -> bool
    ensures { result ≡ eqb (byte sheet.now i 0) 0 }
{
    byte(sheet, i, 0) == 0
}

// Which of the positions 64 k to 64 k + 63 record i of a sheet names, the first at bit 0. 0 where the sheet has no such record
// or its mask no such word.
pub fn mask_word(sheet: &[u8], i: usize, k: usize) -> u64
    ensures { WordOf sheet.now i k result }
{
    if MASK_WORDS <= k {
        return 0;
    }
    if sheet.len() / limits::RECORD <= i {
        return 0;
    }
    octets::eight(sheet, i * limits::RECORD + 4 + 8 * k)
}

// N, 2 to the n. 0 where n is above limits::LARGEST_N.
pub fn size(n: usize) -> usize
    ensures { result ≡ positions n }
{
    if limits::LARGEST_N < n {
        return 0;
    }
    1 << n
}

// Whether a sheet of this length has N records, n at most limits::LARGEST_N.
pub fn recorded(n: usize, sheet: usize) -> bool
    ensures { result ≡ recorded n sheet }
{
    if limits::LARGEST_N < n {
        return false;
    }
    sheet == size(n) * limits::RECORD
}

// Whether a sheet and a word of these lengths have N records and N symbols, n at most limits::LARGEST_N.
pub fn shaped(n: usize, sheet: usize, word: usize) -> bool
    ensures { result ≡ shaped n sheet word }
{
    if !recorded(n, sheet) {
        return false;
    }
    word == size(n)
}

// Whether there is a check of length r: r is 0, 6 or 11.
pub fn is_check_length(r: usize) -> bool
    ensures { result ≡ check_length r }
{
    matches!(r, 0 | 6 | 11)
}

// Checks a sheet of N = 2 to the n records, with its check length r.
// Ok, or refuses: BadShape (11: n above 9, or not 68N bytes), BadRecord (12: the place of the first record that breaks
// any rule), HoldsNothing (19: no free position), BadCheck (13: r not 0, 6 or 11, or r above 0 and no more than r free
// positions); the first that applies.
pub fn check_sheet(n: usize, sheet: &[u8], r: usize) -> Result<(), Refused>
    ensures { done_or_refusal result ≡ checking n sheet.now r }
{
    if !recorded(n, sheet.len()) {
        return Err(Refused::BadShape);
    }
    if let Some(place) = faults::first_bad(sheet) {
        return Err(Refused::BadRecord { place });
    }
    let k = count_free(sheet);
    let bad = faults::bad_check(r, k);
    if k == 0 {
        return Err(Refused::HoldsNothing);
    }
    if bad {
        return Err(Refused::BadCheck);
    }
    Ok(())
}

// The place of the first symbol above `top`.
fn first_above(word: &[u8], top: u8) -> Option<usize>
    ensures { result ≡ position (ltb top) word.now }
{
    word.iter().position(|&s| s > top)
}

// Checks a word that is to be `wanted` symbols long, none above `top`, whose call is given `room` bytes and needs `needed`.
// Answers Ok, or why it refuses: BadLength (14), BadSymbol (15: the place of the first symbol above `top`), ShortOutput (16);
// the first that applies.
pub fn check_word(
    word: &[u8],
    wanted: usize,
    top: u8,
    room: usize,
    needed: usize,
) -> Result<(), Refused>
    ensures { done_or_refusal result ≡ wording wanted top needed word.now room }
{
    if word.len() != wanted {
        return Err(Refused::BadLength);
    }
    if let Some(place) = first_above(word, top) {
        return Err(Refused::BadSymbol { place });
    }
    if room < needed {
        return Err(Refused::ShortOutput);
    }
    Ok(())
}

// Checks the sheet and the word of a call, as check_sheet and then check_word do: the refusals 11 to 16 of every call.
// Numbers one by one, as in the definition that its clause names: a struct for them would only be taken apart there.
pub fn check_call(
    n: usize,
    sheet: &[u8],
    r: usize,
    word: &[u8],
    wanted: usize,
    top: u8,
    room: usize,
    needed: usize,
) -> Result<(), Refused>
    ensures { done_or_refusal result ≡ fault (call_refusals n sheet.now r wanted top needed word.now room) }
{
    check_sheet(n, sheet, r)?;
    check_word(word, wanted, top, room, needed)
}

// The number of free positions of a sheet, K: of its whole records of 68 bytes, those whose byte 0 is 0.
// Takes any bytes; the records need not keep the rules.
pub fn count_free(sheet: &[u8]) -> usize
    ensures { result ≡ frees (tab (length sheet.now / record_bytes) (rule_at sheet.now)) }
{
    let mut k: usize = 0;
    for i in 0..sheet.len() / limits::RECORD {
        if is_free(sheet, i) {
            k += 1;
        }
    }
    k
}
