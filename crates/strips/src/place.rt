// Rows made of the records of a strip, in room that holds zeros.
ghost use Rattle.std.specs.Prelude.{◌≡◌, ◌+◌, ◌≤◌, length, replicate};
ghost use Rattle.strips.specs.Answering.{record_words};
ghost use Rattle.strips.specs.Placing.{PutLanes, Placed, lost_sym, lost_word};

use crate::strip::Strip;
use bits::octets;

// The eight words of a record of these bytes go to `to`.
fn put(vals: &mut [u64], to: usize, bytes: &[u8])
    requires { (to + 8 ≤ length vals.old) × (length bytes.now ≡ 64) }
    ensures { PutLanes to bytes.now vals.old vals.new }
{
    // by index, since of what `iter_mut` and `chunks_exact_mut` lend to a zip a proof learns only the length
    for k in 0..8 {
        vals[to + k] = octets::eight(bytes, 8 * k);
    }
}

// The rows of a strip's records, of which the last eight words are the record's.
pub fn place(s: &Strip, vals: &mut [u64])
    requires { vals.old ≡ replicate (record_words s.now) 0 }
    ensures { Placed s.now.terms.coeffs s.now.terms.words (length s.now.lost.now) s.now.records.now vals.new }
{
    let t = s.terms;
    for (j, bytes) in s.iter().enumerate() {
        put(vals, j * t.words + (t.coeffs + 1), bytes);
    }
}

// 2 for a lost record, else 0.
fn symbol(a: u8) -> u8
    ensures { result ≡ lost_sym a }
{
    if a == 0 { 0 } else { 2 }
}

// What is lost, as a word.
pub fn erase(lost: &[u8], word: &mut [u8])
    requires { length word.old ≡ length lost.now }
    ensures { word.new ≡ lost_word lost.now }
{
    // by index, as above
    for (j, mark) in lost.iter().enumerate() {
        word[j] = symbol(*mark);
    }
}
