// Rows made of the symbols of a word, in room that holds zeros.
ghost use Rattle.std.specs.Prelude.{◌≡◌, length, replicate};
ghost use Rattle.decoder.specs.Answering.{symbol_words};
ghost use Rattle.decoder.specs.Placing.{Placed};

use crate::word::Word;

// The rows of a word's symbols, the constant in the word behind the coefficients.
pub fn place(w: &Word, vals: &mut [u64])
    requires { vals.old ≡ replicate (symbol_words w.now) 0 }
    ensures { Placed w.now.terms.coeffs w.now.terms.words (length w.now.symbols.now) w.now.symbols.now vals.new }
{
    let t = w.terms;
    // by index, since of what `chunks_exact_mut` lends a proof learns only the length
    for (j, s) in w.symbols.iter().enumerate() {
        vals[j * t.words + t.coeffs] = u64::from(*s == 1);
    }
}
