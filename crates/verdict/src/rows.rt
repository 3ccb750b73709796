// The rows of a list of words, w words each: c of coefficients, then what is known beside them.
ghost use Rattle.std.specs.Prelude.{◌≡◌, ◌≢◌, ℕ, ◌+◌, ◌*◌, ◌/◌, ◌<◌, ◌≤◌, false, length, slice_index, MatchResult};
ghost use Rattle.std.specs.Fn.{FnReturnsAt};
ghost use Rattle.std.specs.Slice.Iter.{chunks_exact_rest, chunks_exact_size};
ghost use Rattle.bits.specs.Rows.{row};
ghost use Rattle.verdict.specs.Whole.{whole};
ghost use Rattle.meaning.specs.declared.Refused.TheVariants.{BadShape};

use meaning::Refused;
use std::slice::ChunksExact;

// Whole rows, with BEHIND words or more behind their coefficients.
#[derive(Clone, Copy)]
pub struct Rows<'a, const BEHIND: usize> {
    pub words: &'a [u64],
    pub c: usize,
    pub w: usize,
    pub ghost wide: { c + BEHIND ≤ w },
    pub ghost some: { 0 < w },
    pub ghost whole: { length words.now ≡ length words.now / w * w },
}

impl<'a, const BEHIND: usize> Rows<'a, BEHIND> {
    // The rows of these words, or BadShape where a row has no word or too few behind the coefficients, or they are no whole rows.
    pub fn new(words: &'a [u64], c: usize, w: usize) -> Result<Rows<'a, BEHIND>, Refused>
        ensures { MatchResult result (λ r. (r.words.now ≡ words.now) × (r.c ≡ c) × (r.w ≡ w)) (λ e. (e ≡ BadShape) × (0 < w → whole BEHIND c w (length words.now) ≡ false)) }
    {
        if w == 0 || w < BEHIND || w - BEHIND < c || words.len() % w != 0 {
            return Err(Refused::BadShape);
        }
        Ok(Rows { words, c, w })
    }

    // How many there are.
    pub fn len(&self) -> usize
        ensures { result ≡ length self.now.words.now / self.now.w }
    {
        self.words.len() / self.w
    }

    // Each in turn.
    pub fn iter(&self) -> ChunksExact<'a, u64>
        ensures rest { chunks_exact_rest result ≡ self.now.words.now }
        ensures size { chunks_exact_size result ≡ self.now.w }
    {
        self.words.chunks_exact(self.w)
    }

    // Writes what `byte` gives of each row, in their order. Where the output has not one byte for each row, nothing is changed.
    pub fn write<F: Fn(&[u64]) -> u8>(&self, out: &mut [u8], byte: F)
        requires { (x : _) → length x.now ≡ self.now.w → F.pre byte x }
        ensures wrote { let r = self.now in length out.old ≡ length r.words.now / r.w → (j : ℕ) → j < length out.new
            → FnReturnsAt F.Fn byte (row r.w r.words.now j) (slice_index out.new j) }
        ensures kept { length out.old ≢ length self.now.words.now / self.now.w → out.new ≡ out.old }
    {
        if out.len() != self.len() {
            return;
        }
        // By index, since a proof knows nothing of what is written through `iter_mut` in a `zip`.
        for (j, x) in self.iter().enumerate() {
            out[j] = byte(x);
        }
    }
}
