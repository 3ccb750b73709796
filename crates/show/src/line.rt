// The line of a record, at the start of a buffer. Each function answers where its text ends.
ghost use Rattle.std.specs.Prelude.{◌≡◌, ◌+◌, ◌<◌, ◌≤◌, length, take, MatchOption};
ghost use Rattle.meaning.specs.Stream.{answer_bytes};
ghost use Rattle.show.specs.Text.{Written};
ghost use Rattle.show.specs.Line.{number_at, counted, verdict, between, no_answer, plain_of, refusal_of, said_of, line_of, longest_line};

use crate::text;

// The number in the two bytes of a record from `at` on, low first.
fn two(answer: &[u8], at: usize) -> u64
    requires { at + 1 < length answer.now }
    ensures { result ≡ number_at answer.now at }
{
    u64::from(u16::from_le_bytes([answer[at], answer[at + 1]]))
}

// A count behind its name, both behind the first `at` bytes.
fn count(out: &mut [u8], at: usize, name: &[u8], n: u64) -> usize
    requires { at + length name.now + 20 ≤ length out.old }
    ensures { Written out.old out.new at result (counted name.now n) × (result ≤ at + length name.now + 20) }
{
    let from = text::put(out, at, name);
    text::put_number(out, from, n, 3)
}

// A number between two texts, in `width` places or more.
fn with_number(out: &mut [u8], before: &[u8], width: usize, n: u64, behind: &[u8]) -> usize
    requires { (width ≤ 20) × (length before.now + 20 + length behind.now < length out.old) }
    ensures { Written out.old out.new 0 result (between before.now width n behind.now) × (result < length out.new) }
{
    let a = text::put(out, 0, before);
    let b = text::put_number(out, a, n, width);
    text::put(out, b, behind)
}

// A refusal without a number in it, and what it means; none for a code that no answer has.
#[tactic(auto, unfolding(crate::specs::Line::plain_of, crate::specs::Line::longest_line))]
fn plain(code: u64) -> Option<&'static [u8]>
    ensures { MatchOption result (plain_of code ≡ no_answer code) (λ t. (plain_of code ≡ t.now) × (length t.now < longest_line)) }
{
    let text: &'static [u8] = match code {
        11 => {
            b"refused 11    the sheet is not 68 N bytes long for an N up to 512; one of 20 N is old, and is to be converted"
        }
        13 => {
            b"refused 13    choice.bin is not two bytes, or its check length is not 0, 6 or 11, or leaves no payload"
        }
        14 => b"refused 14    the word is cut off",
        16 => b"refused 16    the output is too short",
        17 => b"refused 17    the ceiling is above 255",
        19 => b"refused 19    the sheet has no free position: it holds nothing",
        _ => return None,
    };
    Some(text)
}

// The five numbers that a record starts with. A code stays a number: a record holds 01's numbers, and any others.
#[derive(Clone, Copy)]
struct Numbers {
    code: u64,
    place: u64,
    g: u64,
    m: u64,
    d: u64,
}

impl Numbers {
    // Those of a record.
    #[tactic(auto, unfolding(meaning::specs::Stream::answer_bytes, meaning::specs::Limits::head_bytes, meaning::specs::Limits::strip_width))]
    fn of(answer: &[u8]) -> Numbers
        requires { length answer.now ≡ answer_bytes }
        ensures code { result.code ≡ number_at answer.now 0 }
        ensures place { result.place ≡ number_at answer.now 2 }
        ensures g { result.g ≡ number_at answer.now 4 }
        ensures m { result.m ≡ number_at answer.now 6 }
        ensures d { result.d ≡ number_at answer.now 8 }
    {
        Numbers {
            code: two(answer, 0),
            place: two(answer, 2),
            g: two(answer, 4),
            m: two(answer, 6),
            d: two(answer, 8),
        }
    }

    // A verdict with g, m and d.
    fn counts(&self, out: &mut [u8], label: &[u8]) -> usize
        requires { length label.now + 70 < length out.old }
        ensures { Written out.old out.new 0 result (verdict label.now self.now.g self.now.m self.now.d) × (result < length out.new) }
    {
        let a = text::put(out, 0, label);
        let b = count(out, a, b"g ", self.g);
        let c = count(out, b, b"  m ", self.m);
        count(out, c, b"  d ", self.d)
    }

    // A refusal.
    #[tactic(auto, unfolding(crate::specs::Line::refusal_of, crate::specs::Line::longest_line))]
    fn refusal(&self, out: &mut [u8]) -> usize
        requires { longest_line ≤ length out.old }
        ensures { Written out.old out.new 0 result (refusal_of self.now.code self.now.place self.now.g) × (result < length out.new) }
    {
        match self.code {
            12 => with_number(
                out,
                b"refused 12    record ",
                0,
                self.place,
                b" of the sheet breaks a rule",
            ),
            15 => with_number(
                out,
                b"refused 15    symbol ",
                0,
                self.place,
                b" is none of 0, 1 and 2",
            ),
            18 => with_number(
                out,
                b"refused 18    g ",
                3,
                self.g,
                b"  more unknowns than the ceiling allows",
            ),
            code => match plain(code) {
                Some(text) => text::put(out, 0, text),
                None => with_number(out, b"code ", 0, code, b" is no answer's"),
            },
        }
    }

    // What a record says: the verdict, or a refusal.
    #[tactic(auto, unfolding(crate::specs::Line::said_of, crate::specs::Line::longest_line))]
    fn said(&self, out: &mut [u8]) -> usize
        requires { longest_line ≤ length out.old }
        ensures { Written out.old out.new 0 result (said_of self.now.code self.now.place self.now.g self.now.m self.now.d) × (result < length out.new) }
    {
        match self.code {
            0 => self.counts(out, b"unique        "),
            1 => self.counts(out, b"ambiguous     "),
            2 => self.counts(out, b"inconsistent  "),
            _ => self.refusal(out),
        }
    }
}

// The line of a record.
pub fn line(answer: &[u8], out: &mut [u8]) -> usize
    requires { (length answer.now ≡ answer_bytes) × (longest_line ≤ length out.old) }
    ensures { (result ≡ length (line_of answer.now)) × (result ≤ length out.new) × (take result out.new ≡ line_of answer.now) }
{
    let k = Numbers::of(answer).said(out);
    text::put(out, k, b"\n")
}
