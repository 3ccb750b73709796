// What an answer says: its five numbers, the start of its record, and whether it is Done. And the pieces of an input.
#![tactic(auto)]

ghost use Rattle.std.specs.Prelude.{◌≡◌};
ghost use Rattle.meaning.specs.Answers.{numbers_of, is_done};
ghost use Rattle.meaning.specs.Stream.{two_bytes, header};

pub mod pieces;

use meaning::{Answer, limits};

// The five numbers of an answer: code, place, unknowns g, equations m, dimension d.
pub fn numbers(a: Answer) -> [usize; 5]
    ensures { result ≡ numbers_of a }
{
    match a {
        Answer::Done => [0, 0, 0, 0, 0],
        Answer::Unique { g, m } => [0, 0, g, m, 0],
        Answer::Ambiguous { g, m, d } => [1, 0, g, m, d],
        Answer::Inconsistent { g, m } => [2, 0, g, m, 0],
        Answer::LaneInconsistent { lane, g, m } => [2, lane, g, m, 0],
        Answer::BadShape => [11, 0, 0, 0, 0],
        Answer::BadRecord { place } => [12, place, 0, 0, 0],
        Answer::BadCheck => [13, 0, 0, 0, 0],
        Answer::BadLength => [14, 0, 0, 0, 0],
        Answer::BadSymbol { place } => [15, place, 0, 0, 0],
        Answer::ShortOutput => [16, 0, 0, 0, 0],
        Answer::BadCeiling => [17, 0, 0, 0, 0],
        Answer::TooMany { g } => [18, 0, g, 0, 0],
        Answer::HoldsNothing => [19, 0, 0, 0, 0],
    }
}

// A number as two bytes, the low one first, but for what they cannot hold.
pub fn two_bytes(x: usize) -> [u8; 2]
    ensures { result ≡ two_bytes x }
{
    ((x % 65536) as u16).to_le_bytes()
}

// The first 16 bytes of an answer's record: code, place, g, m, d, two bytes each, low first, then six zeros.
pub fn header(a: Answer) -> [u8; limits::HEAD]
    ensures { result ≡ header a }
{
    let [code, place, g, m, d] = numbers(a);
    let code = two_bytes(code);
    let place = two_bytes(place);
    let g = two_bytes(g);
    let m = two_bytes(m);
    let d = two_bytes(d);
    [
        code[0], code[1], place[0], place[1], g[0], g[1], m[0], m[1], d[0], d[1], 0, 0, 0, 0, 0, 0,
    ]
}

// Whether an answer is Done. Nothing here asks any more: it stands for its promise and the two edits of it.
pub fn is_done(a: Answer) -> bool
    ensures { result ≡ is_done a }
{
    matches!(a, Answer::Done)
}
