// Repairs a stream of strips. Reads sheet.bin and choice.bin in the folder that it is run in, the marks of lost records from the
// file that its first argument names, and strips of 64N bytes on standard input; writes the part of each strip, 65N bytes, to
// standard output, and its record of 16 bytes to the file that its second argument names. The answers are those of
// `strip_stream::answer`, by runs of whole strips and then the rest; that these are the parts and records of the whole input is a
// theorem (proofs/Joined, `runs_joined`; strip_stream/proofs/Promise, `cut_all`).
// What cannot be read or written, and a file of wrong length, is said on standard error; else nothing is. Where the file of the
// records cannot be opened, nothing is read or written.
#![tactic(auto)]

ghost use Rattle.std.specs.Prelude.{◌≡◌, ◌*◌, ◌^◌, ◌≤◌, ◌<◌, [], length, OnErr};
ghost use Rattle.meaning.specs.Limits.{largest_n, record_bytes, head_bytes};
ghost use Rattle.strip_stream.specs.Strips.{strip_bytes, part_bytes, record_count, part_count};
ghost use Rattle.intake.specs.Turns.{Ends};
ghost use Rattle.repair.specs.Runs.{run_strips, Room, Ready, Filled};

use intake::{End, Progress, Streams, Turn};
use meaning::{Refused, limits};
use std::fs::File;
use std::process::ExitCode;
use std::rt::Env;

// One byte more than the longest sheet, so that a longer file is seen.
const SHEET: usize = limits::RECORD * limits::POSITIONS + 1;

// One byte more than a choice.
const CHOICE: usize = 3;

// One more than the most marks.
const MARKS: usize = limits::POSITIONS + 1;

// The strips of a run.
const RUN: usize = 16;

// The bytes of a run of strips of one record.
const SHORTEST: usize = RUN * 64;

// The bytes of the longest run.
const INPUT: usize = SHORTEST * limits::POSITIONS;

// The bytes of the longest parts of a run.
const REPAIRED: usize = RUN * 65 * limits::POSITIONS;

// The bytes of the records of a run.
const RECORDS: usize = RUN * limits::HEAD;

// Room for the name of a file.
const PATH: usize = 4096;

// What is said of a sheet or a choice of wrong length: no strip is read.
fn text(why: Refused) -> &'static [u8] {
    match why {
        Refused::BadShape =>
            b"repair: sheet.bin is not 68 N bytes long for an N of 1, 2, 4, .. 512; no strip was read\n",
        _ => b"repair: choice.bin is not two bytes long; no strip was read\n",
    }
}

// How many bytes of each buffer are to be written.
#[derive(Clone, Copy)]
struct Sizes {
    repaired: usize,
    records: usize,
}

// Reads sheet.bin. There is room for more than the longest sheet, so that a longer file is seen.
fn read_sheet<'a>(streams: &Streams, buf: &'a mut [u8]) -> &'a [u8]
    requires { record_bytes * 2 ^ largest_n < length buf.old }
    ensures { length result.now ≤ length buf.old }
{
    intake::read_file(streams, b"sheet.bin", b"repair: sheet.bin", buf)
}

// Reads choice.bin, likewise.
fn read_choice<'a>(streams: &Streams, buf: &'a mut [u8]) -> &'a [u8]
    requires { 2 < length buf.old }
    ensures { length result.now ≤ length buf.old }
{
    intake::read_file(streams, b"choice.bin", b"repair: choice.bin", buf)
}

// Reads the marks, likewise.
fn read_marks<'a>(streams: &Streams, path: &[u8], buf: &'a mut [u8]) -> &'a [u8]
    requires { 2 ^ largest_n < length buf.old }
    ensures { length result.now ≤ length buf.old }
{
    intake::read_file(streams, path, b"repair: the marks", buf)
}

// The sheet, the choice and the marks, as they were read.
#[derive(Clone, Copy)]
struct Lot<'a> {
    sheet: &'a [u8],
    choice: &'a [u8],
    lost: &'a [u8],
}

impl<'a> Lot<'a> {
    // The lot, where its strips can be answered, or why they cannot.
    fn fit(self) -> Result<Fit<'a>, Refused>
        ensures { OnErr result ((record_count self.entry.sheet.now self.entry.choice.now [] ≡ 1) × (part_count self.entry.sheet.now self.entry.choice.now [] ≡ 0)) }
    {
        let t = stream::agreed(self.sheet, self.choice)?;
        Ok(Fit {
            lot: self,
            run: SHORTEST << t.n,
        })
    }

    // Fills in the parts and records of strips, and answers how many bytes they are.
    fn fill(&self, strips: &[u8], repaired: &mut [u8], records: &mut [u8]) -> Sizes
        requires { Room self.now.sheet.now self.now.choice.now strips.now (length repaired.old) (length records.old) }
        ensures { Filled self.now.sheet.now self.now.choice.now self.now.lost.now strips.now repaired.old repaired.new records.old records.new result.repaired result.records }
    {
        let p = strip_stream::parts(self.sheet, self.choice, strips);
        let k = strip_stream::count(self.sheet, self.choice, strips);
        let _ = strip_stream::answer(
            self.sheet,
            self.choice,
            self.lost,
            strips,
            repaired,
            records,
        );
        Sizes {
            repaired: p * strip_stream::part(self.sheet),
            records: k * limits::HEAD,
        }
    }

    // Answers strips, writes their parts to standard output and their records to `file`; answers whether it could.
    fn answer(
        &self,
        streams: &Streams,
        file: &mut File,
        strips: &[u8],
        repaired: &mut [u8],
        records: &mut [u8],
    ) -> bool
        requires { Room self.now.sheet.now self.now.choice.now strips.now (length repaired.old) (length records.old) }
    {
        let k = self.fill(strips, repaired, records);
        let first = streams.write(
            &mut streams.output(),
            &repaired[..k.repaired],
            b"repair: standard output, strips are missing",
        );
        let second = streams.write(
            file,
            &records[..k.records],
            b"repair: the records, some are missing",
        );
        first && second
    }

    // Says why no strip is read, and writes the one record that there is without a strip.
    fn refuse(
        &self,
        streams: &Streams,
        why: Refused,
        file: &mut File,
        repaired: &mut [u8],
        records: &mut [u8],
    )
        requires { (record_count self.now.sheet.now self.now.choice.now [] ≡ 1) × (part_count self.now.sheet.now self.now.choice.now [] ≡ 0) × (head_bytes ≤ length records.old) }
    {
        streams.say(text(why));
        self.answer(streams, file, &[], repaired, records);
    }
}

// A lot whose strips can be answered, and the bytes of a run of its strips.
#[derive(Clone, Copy)]
struct Fit<'a> {
    lot: Lot<'a>,
    run: usize,
    ghost ready: { Ready lot.sheet.now lot.choice.now run (run_strips * part_bytes largest_n) (run_strips * head_bytes) },
    ghost within: { run ≤ run_strips * strip_bytes largest_n },
}

impl Fit<'_> {
    // Reads a run of strips, answers it and answers whether to go on. A read that fails ends the input, and is said.
    fn turn(
        &self,
        streams: &Streams,
        file: &mut File,
        run: &mut [u8],
        repaired: &mut [u8; REPAIRED],
        records: &mut [u8; RECORDS],
    ) -> bool
        requires { Ready self.now.lot.sheet.now self.now.lot.choice.now (length run.old) (length repaired.old) (length records.old) }
    {
        let got = streams.read(run);
        let written = self
            .lot
            .answer(streams, file, &run[..got.n], repaired, records);
        if written && let End::Failed(why) = got.end {
            streams.fail(
                b"repair: standard input, the strips after this point are not answered",
                Some(why),
            );
        }
        intake::goes_on(written, got.n, run.len())
    }

    // A turn, in the room of the longest run.
    fn next(
        &self,
        streams: &Streams,
        file: &mut File,
        input: &mut [u8; INPUT],
        repaired: &mut [u8; REPAIRED],
        records: &mut [u8; RECORDS],
    ) -> bool {
        self.turn(streams, file, &mut input[..self.run], repaired, records)
    }

    // Answers runs until one is the last.
    fn turns(
        &self,
        streams: &Streams,
        file: &mut File,
        input: &mut [u8; INPUT],
        repaired: &mut [u8; REPAIRED],
        records: &mut [u8; RECORDS],
    ) -> Progress
        ensures { Ends result.made result.more }
    {
        let mut rooms = Rooms {
            fit: self,
            streams,
            file,
            input,
            repaired,
            records,
        };
        intake::take_turns(&mut rooms)
    }
}

// What a turn takes.
#[derive(Drop)]
struct Rooms<'a> {
    fit: &'a Fit<'a>,
    streams: &'a Streams,
    file: &'a mut File,
    input: &'a mut [u8; INPUT],
    repaired: &'a mut [u8; REPAIRED],
    records: &'a mut [u8; RECORDS],
}

impl Turn for Rooms<'_> {
    fn turn(&mut self) -> bool {
        self.fit.next(
            self.streams,
            self.file,
            self.input,
            self.repaired,
            self.records,
        )
    }
}

// Answers the strips on standard input; where the sheet or the choice has a wrong length, reads none.
fn serve(
    streams: &Streams,
    file: &mut File,
    lot: Lot,
    input: &mut [u8; INPUT],
    repaired: &mut [u8; REPAIRED],
    records: &mut [u8; RECORDS],
) {
    match lot.fit() {
        Ok(fit) => {
            if fit.turns(streams, file, input, repaired, records).more {
                streams.say(b"repair: too many strips\n");
            }
        }
        Err(why) => lot.refuse(streams, why, file, repaired, records),
    }
}

// Reads the three files, makes the room for a run, once, and serves.
fn work(streams: &Streams, file: &mut File, marks: &[u8]) {
    let mut sheet = [0u8; SHEET];
    let mut choice = [0u8; CHOICE];
    let mut lost = [0u8; MARKS];
    let lot = Lot {
        sheet: read_sheet(streams, &mut sheet),
        choice: read_choice(streams, &mut choice),
        lost: read_marks(streams, marks, &mut lost),
    };
    let mut input = [0u8; INPUT];
    let mut repaired = [0u8; REPAIRED];
    let mut records = [0u8; RECORDS];
    serve(streams, file, lot, &mut input, &mut repaired, &mut records);
}

// Puts argument i to the start of name, and answers how many bytes it has; 0 where there is none, or no room for it: what
// has no name cannot be opened, and that is said.
fn argument(streams: &Streams, i: usize, name: &mut [u8]) -> usize
    ensures { result ≤ length name.new }
{
    streams.runtime().arg(i, name).unwrap_or(0)
}

// Opens the file of the records, and works.
fn main(rt: HostRuntime) -> ExitCode {
    let streams = Streams::new(rt);
    let mut name = [0u8; PATH];
    let r = argument(&streams, 2, &mut name);
    match streams.create(&name[0..r]) {
        Ok(mut file) => {
            let m = argument(&streams, 1, &mut name);
            work(&streams, &mut file, &name[0..m]);
        }
        Err(why) => streams.fail(b"repair: the records", Some(why)),
    }
    streams.status()
}
