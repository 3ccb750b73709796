// The number of unknowns of a word, from what is erased alone: its open free positions, by halves. A symbol above 1 is
// erased.
#![tactic(auto)]

ghost use Rattle.std.specs.Prelude.{◌≡◌, ◌+◌, ◌*◌, ◌^◌, ◌≤◌, ◌<◌, length};
ghost use Rattle.bits.specs.Vectors.{any};
ghost use Rattle.meaning.specs.Limits.{mask_bytes};
ghost use Rattle.meaning.specs.Sheet.{rule_at, rules};
ghost use Rattle.meaning.specs.Codewords.{erased};
ghost use Rattle.meaning.specs.Open.{unknowns};
ghost use Rattle.counting.specs.Counting.{counting};
ghost use Rattle.counting.specs.Halves.{Spread, open_one, open_frees};

use meaning::limits;

// The larger of two symbols goes to the left half and the smaller one to the right half: the left one is then erased where one
// of them was, and the right one where both were.
fn spread(left: &mut [u8], right: &mut [u8])
    requires { length left.old ≡ length right.old }
    ensures { Spread left.old right.old left.new right.new }
{
    // By an index: what is written through a zip of `iter_mut` is not known afterwards.
    for (i, a) in left.iter_mut().enumerate() {
        let b = right[i];
        let larger = b.max(*a);
        right[i] = b.min(*a);
        *a = larger;
    }
}

// Whether a symbol is erased.
fn some_lost(marks: &[u8]) -> bool
    ensures { result ≡ any erased marks.now }
{
    marks.iter().any(|s| *s > 1)
}

// 1 if position `at` is free and its symbol s is erased, else 0.
fn one(sheet: &[u8], at: usize, s: u8) -> usize
    ensures { result ≡ open_one (rule_at sheet.now at) s }
{
    let free = sheet::is_free(sheet, at);
    usize::from(free && s > 1)
}

// The open free positions of a block of 2 to the k symbols whose first position is `at`. Where nothing is erased there is none.
#[tactic(auto, unfolding(meaning::specs::Limits::mask_bytes))]
fn block(marks: &mut [u8], sheet: &[u8], at: usize, k: usize) -> usize
    requires { (length marks.old ≡ 2 ^ k) × (at + length marks.old ≤ 8 * mask_bytes) }
    ensures { result ≡ open_frees sheet.now at k marks.old }
{
    if k == 0 {
        one(sheet, at, marks[0])
    } else if !some_lost(marks) {
        0
    } else {
        let h = marks.len() / 2;
        let (left, right) = marks.split_at_mut(h);
        spread(left, right);
        block(left, sheet, at, k - 1) + block(right, sheet, at + h, k - 1)
    }
}

// The unknowns of a word that has N symbols, under a sheet of N records.
#[tactic(auto, unfolding(meaning::specs::Limits::mask_bytes))]
fn within(n: usize, sheet: &[u8], word: &[u8]) -> usize
    requires { (length word.now ≡ 2 ^ n) × (length word.now ≤ 8 * mask_bytes) }
    ensures { result ≡ unknowns n (rules n sheet.now) word.now }
{
    let mut marks: [u8; limits::POSITIONS] = [0; limits::POSITIONS];
    let marks = &mut marks[..word.len()];
    marks.copy_from_slice(word);
    block(marks, sheet, 0, n)
}

// The number of unknowns g of a word of N = 2 to the n symbols (0, 1, above 1 erased) under the rules of a sheet of N
// records: its open free positions, from what is erased alone. 0 where n is above limits::LARGEST_N, or where the sheet or the word has not
// the length that n asks for.
pub fn unknowns(n: usize, sheet: &[u8], word: &[u8]) -> usize
    ensures { result ≡ counting n sheet.now word.now }
{
    if !sheet::shaped(n, sheet.len(), word.len()) {
        return 0;
    }
    if !some_lost(word) {
        return 0;
    }
    within(n, sheet, word)
}
