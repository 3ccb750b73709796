// One answer record: the numbers of its answer, then three strips.
ghost use Rattle.std.specs.Prelude.{◌≡◌, ◌++◌, ◌*◌, ◌≤◌, length, replicate};
ghost use Rattle.meaning.specs.Limits.{largest_n, strip_width};
ghost use Rattle.meaning.specs.Stream.{header, answer_bytes, answer_record, refused_record};
ghost use Rattle.meaning.specs.Results.{refusal};
ghost use Rattle.stream.specs.Laying.{laid};

use crate::Terms;
use meaning::{Answer, Refused, limits};

// Three strips before anything is copied into them.
fn blank() -> [u8; limits::STRIPS]
    ensures { result ≡ replicate (3 * strip_width) 255 }
{
    [255; limits::STRIPS]
}

// Copies the three parts of `found`, each of `size` bytes, to the starts of three strips. One by one: of what is written through
// chunks_exact_mut a proof knows nothing.
fn lay(found: &[u8], size: usize, strips: &mut [u8])
    requires { (length found.now ≡ 3 * size) × (size ≤ strip_width) × (strips.old ≡ replicate (3 * strip_width) 255) }
    ensures { strips.new ≡ laid size found.now }
{
    bits::octets::copy(&found[0..size], &mut strips[0..limits::WIDTH]);
    bits::octets::copy(
        &found[size..2 * size],
        &mut strips[limits::WIDTH..2 * limits::WIDTH],
    );
    bits::octets::copy(
        &found[2 * size..3 * size],
        &mut strips[2 * limits::WIDTH..3 * limits::WIDTH],
    );
}

// Writes a record. By octets::copy, which asks nothing of the lengths.
fn put(a: Answer, strips: &[u8], out: &mut [u8])
    requires { (length strips.now ≡ 3 * strip_width) × (length out.old ≡ answer_bytes) }
    ensures { out.new ≡ header a ++ strips.now }
{
    bits::octets::copy(&answers::header(a), out);
    bits::octets::copy(strips, &mut out[limits::HEAD..]);
}

// Writes the record of a refusal.
pub fn refuse(e: Refused, out: &mut [u8])
    requires { length out.old ≡ answer_bytes }
    ensures { out.new ≡ refused_record (refusal e) }
{
    put(Answer::from(e), &blank(), out);
}

// Writes the record of one word.
pub fn answer(t: Terms, sheet: &[u8], word: &[u8], out: &mut [u8])
    requires { (t.n ≤ largest_n) × (length out.old ≡ answer_bytes) }
    ensures { out.new ≡ answer_record t.n sheet.now t.r t.ceiling word.now }
{
    let size = sheet::size(t.n);
    let mut room = blank();
    let found = &mut room[..3 * size];
    let verdict = decoder::decode(t.n, sheet, t.r, t.ceiling, word, found);
    let mut strips = blank();
    lay(found, size, &mut strips);
    put(Answer::from(verdict), &strips, out);
}
