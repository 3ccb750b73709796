// The faults of a sheet: the first record that breaks a rule, and a check length that the sheet has no room for.
ghost use Rattle.std.specs.Prelude.{◌≡◌, ◌/◌, ◌<◌, length, MatchOption};
ghost use Rattle.meaning.specs.Limits.{record_bytes};
ghost use Rattle.meaning.specs.Answers.{bad_check};
ghost use Rattle.sheet.specs.Records.{head_fine, barred, first_fault};

use crate::{MASK_WORDS, byte, is_check_length, is_free, mask_word};
use meaning::limits;

// Whether the first four bytes of record i keep the rules for records.
fn head_fine(sheet: &[u8], i: usize) -> bool
    ensures { result ≡ head_fine sheet.now i }
{
    let kind = byte(sheet, i, 0);
    if kind > 1 {
        return false;
    }
    if byte(sheet, i, 1) > kind {
        return false;
    }
    if byte(sheet, i, 2) != 0 {
        return false;
    }
    byte(sheet, i, 3) == 0
}

// The first position that record i may not name: 0 for a free record, i for a frozen one.
fn barred_from(sheet: &[u8], i: usize) -> usize
    ensures { result ≡ barred sheet.now i }
{
    if is_free(sheet, i) { 0 } else { i }
}

// The place of the first of a sheet's whole records that breaks any rule: records by mask words, each word without the places
// below the first barred one.
pub fn first_bad(sheet: &[u8]) -> Option<usize>
    ensures { MatchOption result (first_fault sheet.now ≡ length sheet.now / record_bytes) (λ i. (i ≡ first_fault sheet.now) × (i < length sheet.now / record_bytes)) }
{
    let mut bad = None;
    'records: for i in 0..sheet.len() / limits::RECORD {
        if !head_fine(sheet, i) {
            bad = Some(i);
            break;
        }
        let from = barred_from(sheet, i);
        let mut low = from % 64;
        for k in from / 64..MASK_WORDS {
            if mask_word(sheet, i, k) >> low != 0 {
                bad = Some(i);
                break 'records;
            }
            low = 0;
        }
    }
    bad
}

// Whether r is no check length, or leaves no payload.
pub fn bad_check(r: usize, k: usize) -> bool
    ensures { result ≡ bad_check r k }
{
    !is_check_length(r) || (0 < r && k <= r)
}
