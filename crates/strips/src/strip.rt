// A strip that can be repaired.
ghost use Rattle.std.specs.Prelude.{◌≡◌, ◌+◌, ◌*◌, ◌^◌, ◌≤◌, length};
ghost use Rattle.decoder.specs.Deciding.{Formed};
ghost use Rattle.strips.specs.Rooms.{most_wide};

use std::slice::ChunksExact;
use system::Terms;

// N records end to end with their sheet and what is lost, a symbol above 1 for a lost record, in which no fault of form was
// found, and what is asked of `system`: at most `terms.most` unknowns, in rows of words of coefficients with a place for each,
// one word for the constant of all lanes, and eight for the lanes.
#[derive(Clone, Copy)]
pub struct Strip<'a> {
    pub sheet: &'a [u8],
    pub records: &'a [u8],
    pub lost: &'a [u8],
    pub terms: Terms,
    ghost formed: { Formed terms.n sheet.now terms.r lost.now },
    ghost whole: { length records.now ≡ 2 ^ terms.n * 64 },
    ghost placed: { terms.most ≤ 64 * terms.coeffs },
    ghost wide: { terms.words ≡ terms.coeffs + 9 },
    ghost narrow: { terms.words ≤ most_wide },
}

impl<'a> Strip<'a> {
    ghost use Rattle.std.specs.Slice.Iter.{chunks_exact_rest, chunks_exact_size};
    ghost use Rattle.strips.specs.Answering.{record_words, equation_words};

    // Each record in turn.
    pub fn iter(&self) -> ChunksExact<'a, u8>
        ensures rest { chunks_exact_rest result ≡ self.now.records.now }
        ensures size { chunks_exact_size result ≡ 64 }
    {
        self.records.chunks_exact(64)
    }

    // Words of the records' rows.
    pub fn record_words(&self) -> usize
        ensures { result ≡ record_words self.now }
    {
        self.lost.len() * self.terms.words
    }

    // Words of the rows that there is room for equations in.
    pub fn equation_words(&self) -> usize
        ensures { result ≡ equation_words self.now }
    {
        (self.lost.len() + self.terms.r) * self.terms.words
    }
}
