// Prints answer records as text. Standard input holds records one after the other; each becomes a line, in order: the verdict
// in words with g, m and d, or a refusal and what it means. A cut-off last record gets no line.
#![tactic(auto)]

ghost use Rattle.std.specs.Prelude.{◌≡◌, ◌≤◌, length, take};
ghost use Rattle.meaning.specs.Stream.{answer_bytes};
ghost use Rattle.show.specs.Line.{longest_line};
ghost use Rattle.intake.specs.Turns.{Ends};
ghost use Rattle.show.specs.Turn.{written};

mod line;
mod text;

use intake::{Progress, Streams, Turn};
use meaning::limits;
use std::process::ExitCode;

// Bytes of the longest line.
const LONGEST: usize = 110;

// Puts the line of a record to the start of out, or nothing where fewer bytes than a record were got; answers how long it is.
fn shown(answer: &[u8], got: usize, out: &mut [u8]) -> usize
    requires { (length answer.now ≡ answer_bytes) × (longest_line ≤ length out.old) }
    ensures { (result ≤ length out.new) × (take result out.new ≡ written got answer.now) }
{
    if got == limits::ANSWER {
        line::line(answer, out)
    } else {
        0
    }
}

// Writes s to standard output, or says on standard error that it cannot; answers whether it could.
fn write(streams: &Streams, s: &[u8]) -> bool {
    let done = streams.put(&mut streams.output(), s).is_ok();
    if !done {
        streams.say(b"show: cannot write, some records are not shown\n");
    }
    done
}

// Reads a record and writes its line; answers whether to go on.
fn turn(streams: &Streams, answer: &mut [u8; limits::ANSWER], out: &mut [u8; LONGEST]) -> bool {
    let got = streams.read(answer);
    let k = shown(answer, got.n, out);
    intake::goes_on(write(streams, &out[..k]), got.n, limits::ANSWER)
}

// What a turn takes.
#[derive(Drop)]
struct Rooms<'a> {
    streams: &'a Streams,
    answer: &'a mut [u8; limits::ANSWER],
    out: &'a mut [u8; LONGEST],
}

impl Turn for Rooms<'_> {
    fn turn(&mut self) -> bool {
        turn(self.streams, self.answer, self.out)
    }
}

// Turns until one answers that there is no more.
fn turns(streams: &Streams, answer: &mut [u8; limits::ANSWER], out: &mut [u8; LONGEST]) -> Progress
    ensures { Ends result.made result.more }
{
    let mut rooms = Rooms {
        streams,
        answer,
        out,
    };
    intake::take_turns(&mut rooms)
}

fn main(rt: HostRuntime) -> ExitCode {
    let streams = Streams::new(rt);
    let mut answer = [0u8; limits::ANSWER];
    let mut out = [0u8; LONGEST];
    turns(&streams, &mut answer, &mut out);
    streams.status()
}
