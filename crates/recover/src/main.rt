// Answers a stream of words. Reads sheet.bin and choice.bin in the folder that it is run in, and words of N bytes on standard
// input; writes a record for each to standard output, as 01 says. The answers are those of `stream::answer`, by
// runs of whole words and then the rest; that these are the records of the whole input is a theorem (proofs/Joined,
// `runs_joined`; stream/proofs/Promise, `cut_all`).
// What cannot be read or written, and a file of wrong length, is said on standard error; else nothing is.
#![tactic(auto)]

ghost use Rattle.std.specs.Prelude.{◌≡◌, ◌*◌, ◌^◌, ◌≤◌, ◌<◌, [], length, OnErr};
ghost use Rattle.meaning.specs.Limits.{largest_n, record_bytes};
ghost use Rattle.meaning.specs.Stream.{answer_bytes, records};
ghost use Rattle.intake.specs.Turns.{Ends};
ghost use Rattle.recover.specs.Runs.{run_words, choice_bytes, Ready, Filled};

use intake::{End, Progress, Streams, Turn};
use meaning::{Refused, limits};
use std::process::ExitCode;

// One byte more than the longest sheet, so that a longer file is seen.
const SHEET: usize = limits::RECORD * limits::POSITIONS + 1;

// One byte more than a choice.
const CHOICE: usize = 3;

// The words of a run.
const RUN: usize = 32;

// The bytes of the longest run.
const INPUT: usize = RUN * limits::POSITIONS;

// The bytes of the records of a run.
const OUTPUT: usize = RUN * limits::ANSWER;

// What is said of a sheet or a choice of wrong length: no word is read.
fn text(why: Refused) -> &'static [u8] {
    match why {
        Refused::BadShape =>
            b"recover: sheet.bin is not 68 N bytes long for an N of 1, 2, 4, .. 512; no word was read\n",
        _ => b"recover: choice.bin is not two bytes long; no word was read\n",
    }
}

// Reads sheet.bin. There is room for more than the longest sheet, so that a longer file is seen.
fn read_sheet<'a>(streams: &Streams, buf: &'a mut [u8]) -> &'a [u8]
    requires { record_bytes * 2 ^ largest_n < length buf.old }
    ensures { length result.now ≤ length buf.old }
{
    intake::read_file(streams, b"sheet.bin", b"recover: sheet.bin", buf)
}

// Reads choice.bin, likewise.
fn read_choice<'a>(streams: &Streams, buf: &'a mut [u8]) -> &'a [u8]
    requires { choice_bytes < length buf.old }
    ensures { length result.now ≤ length buf.old }
{
    intake::read_file(streams, b"choice.bin", b"recover: choice.bin", buf)
}

// The sheet and the choice, as they were read.
#[derive(Clone, Copy)]
struct Lot<'a> {
    sheet: &'a [u8],
    choice: &'a [u8],
}

impl<'a> Lot<'a> {
    // The lot, where its words can be answered, or why they cannot.
    fn fit(self) -> Result<Fit<'a>, Refused>
        ensures { OnErr result (length (records self.entry.sheet.now self.entry.choice.now []) ≡ 1) }
    {
        let t = stream::agreed(self.sheet, self.choice)?;
        Ok(Fit {
            lot: self,
            run: RUN << t.n,
        })
    }

    // Fills in the records of words, and answers how many bytes they are.
    fn fill(&self, words: &[u8], out: &mut [u8]) -> usize
        requires { length (records self.now.sheet.now self.now.choice.now words.now) * answer_bytes ≤ length out.old }
        ensures { Filled self.now.sheet.now self.now.choice.now words.now out.old out.new result }
    {
        let k = stream::records(self.sheet, self.choice, words);
        let _ = stream::answer(self.sheet, self.choice, words, out);
        k * limits::ANSWER
    }

    // Answers words and writes their records; answers whether it could.
    fn answer(&self, streams: &Streams, words: &[u8], out: &mut [u8]) -> bool
        requires { length (records self.now.sheet.now self.now.choice.now words.now) * answer_bytes ≤ length out.old }
    {
        let k = self.fill(words, out);
        streams.write(
            &mut streams.output(),
            &out[..k],
            b"recover: standard output, records are missing",
        )
    }

    // Says why no word is read, and writes the one record that there is without a word.
    fn refuse(&self, streams: &Streams, why: Refused, out: &mut [u8])
        requires { (length (records self.now.sheet.now self.now.choice.now []) ≡ 1) × (answer_bytes ≤ length out.old) }
    {
        streams.say(text(why));
        self.answer(streams, &[], out);
    }
}

// A lot whose words can be answered, and the bytes of a run of its words.
#[derive(Clone, Copy)]
struct Fit<'a> {
    lot: Lot<'a>,
    run: usize,
    ghost ready: { Ready lot.sheet.now lot.choice.now run (run_words * answer_bytes) },
    ghost within: { run ≤ run_words * 2 ^ largest_n },
}

impl Fit<'_> {
    // Reads a run of words, answers it and answers whether to go on. A read that fails ends the input, and is said.
    fn turn(&self, streams: &Streams, run: &mut [u8], out: &mut [u8; OUTPUT]) -> bool
        requires { Ready self.now.lot.sheet.now self.now.lot.choice.now (length run.old) (length out.old) }
    {
        let got = streams.read(run);
        let written = self.lot.answer(streams, &run[..got.n], out);
        if written && let End::Failed(why) = got.end {
            streams.fail(
                b"recover: standard input, the words after this point are not answered",
                Some(why),
            );
        }
        intake::goes_on(written, got.n, run.len())
    }

    // A turn, in the room of the longest run.
    fn next(&self, streams: &Streams, input: &mut [u8; INPUT], out: &mut [u8; OUTPUT]) -> bool {
        self.turn(streams, &mut input[..self.run], out)
    }

    // Answers runs until one is the last.
    fn turns(&self, streams: &Streams, input: &mut [u8; INPUT], out: &mut [u8; OUTPUT]) -> Progress
        ensures { Ends result.made result.more }
    {
        let mut rooms = Rooms {
            fit: self,
            streams,
            input,
            out,
        };
        intake::take_turns(&mut rooms)
    }
}

// What a turn takes.
#[derive(Drop)]
struct Rooms<'a> {
    fit: &'a Fit<'a>,
    streams: &'a Streams,
    input: &'a mut [u8; INPUT],
    out: &'a mut [u8; OUTPUT],
}

impl Turn for Rooms<'_> {
    fn turn(&mut self) -> bool {
        self.fit.next(self.streams, self.input, self.out)
    }
}

// Answers the words on standard input; where the sheet or the choice has a wrong length, reads none.
fn serve(streams: &Streams, lot: Lot, input: &mut [u8; INPUT], out: &mut [u8; OUTPUT]) {
    match lot.fit() {
        Ok(fit) => {
            if fit.turns(streams, input, out).more {
                streams.say(b"recover: too many words\n");
            }
        }
        Err(why) => lot.refuse(streams, why, out),
    }
}

// Reads the two files, makes the room for a run, once, and serves.
fn main(rt: HostRuntime) -> ExitCode {
    let streams = Streams::new(rt);
    let mut sheet = [0u8; SHEET];
    let mut choice = [0u8; CHOICE];
    let lot = Lot {
        sheet: read_sheet(&streams, &mut sheet),
        choice: read_choice(&streams, &mut choice),
    };
    let mut input = [0u8; INPUT];
    let mut out = [0u8; OUTPUT];
    serve(&streams, lot, &mut input, &mut out);
    streams.status()
}
