// A word that can be answered.
ghost use Rattle.std.specs.Prelude.{◌≡◌, ◌+◌, ◌*◌, ◌≤◌};
ghost use Rattle.decoder.specs.Deciding.{Formed};
ghost use Rattle.decoder.specs.Rooms.{most_wide};

use meaning::limits;
use system::Terms;

// Words of the rows of the longest check.
pub const CHECK: usize = system::LONGEST_CHECK * (limits::LARGEST_CEILING / 64 + 2);

// A word of N symbols with its sheet, in which no fault of form was found, and what is asked of `system`: at most `terms.most`
// unknowns, in rows of words of coefficients with a place for each and one word for the constant.
#[derive(Clone, Copy)]
pub struct Word<'a> {
    pub sheet: &'a [u8],
    pub symbols: &'a [u8],
    pub terms: Terms,
    ghost formed: { Formed terms.n sheet.now terms.r symbols.now },
    ghost placed: { terms.most ≤ 64 * terms.coeffs },
    ghost wide: { terms.words ≡ terms.coeffs + 1 },
    ghost narrow: { terms.words ≤ most_wide },
}

impl Word<'_> {
    ghost use Rattle.decoder.specs.Answering.{symbol_words, equation_words};

    // Words of the symbols' rows.
    pub fn symbol_words(&self) -> usize
        ensures { result ≡ symbol_words self.now }
    {
        self.symbols.len() * self.terms.words
    }

    // Words of the rows that there is room for equations in: as many, and those of the check behind them.
    pub fn equation_words(&self) -> usize
        ensures words { result ≡ equation_words self.now }
        ensures more { result ≤ symbol_words self.now + CHECK }
    {
        (self.symbols.len() + self.terms.r) * self.terms.words
    }
}
