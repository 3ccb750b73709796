// Converts an old sheet: standard input holds N records of 20 bytes, N = 1, 2, 4, .. 128, and standard output gets the same sheet
// as N records of 68. Where it cannot be read to its end, or is refused, nothing is written, and standard error says why. The
// work is `sheet_convert::convert`.
#![tactic(auto)]

use intake::Streams;
use itoa::Buffer;
use meaning::{Refused, limits};
use std::process::ExitCode;

// One byte more than the longest sheet, so that a longer one is seen. A sheet of today is read too, and known by its length.
const SHEET: usize = limits::POSITIONS * limits::RECORD + 1;

// Says that a record breaks a rule, and which.
fn say_place(streams: &Streams, place: usize) {
    let mut buffer = Buffer::new();
    let digits = buffer.format(place as u64).as_bytes();
    streams.say(b"convert: 12, a record breaks a rule, the first at place ");
    streams.say(digits);
    streams.say(b", counted from 0\n");
}

// Says what a refusal means.
fn refuse(streams: &Streams, old: &[u8], why: Refused) {
    if let Refused::BadRecord { place } = why {
        say_place(streams, place);
    } else if stream::n_of(old) <= limits::LARGEST_N {
        streams.say(
            b"convert: 11, the sheet has records of 68 bytes already, and needs no converting\n",
        );
    } else {
        streams.say(b"convert: 11, the sheet is not 20 N bytes long for an N of 1, 2, 4, .. 128\n");
    }
}

// Writes the new sheet, or says that it cannot.
fn write(streams: &Streams, s: &[u8]) {
    if streams.put(&mut streams.output(), s).is_err() {
        streams.say(b"convert: cannot write, the new sheet is not whole\n");
    }
}

// Converts a sheet, and writes what it becomes or says why not.
fn turn(streams: &Streams, old: &[u8], out: &mut [u8]) {
    let n = sheet_convert::old_n(old);
    match sheet_convert::convert(n, old, out) {
        Ok(()) => {
            let k = old.len() / limits::OLD_RECORD * limits::RECORD;
            write(streams, &out[..k]);
        }
        Err(why) => refuse(streams, old, why),
    }
}

fn main(rt: HostRuntime) -> ExitCode {
    let streams = Streams::new(rt);
    let mut old = [0u8; SHEET];
    let mut out = [0u8; sheet_convert::LONGEST];
    let got = streams.read(&mut old);
    if got.whole(SHEET) {
        turn(&streams, &old[..got.n], &mut out);
    } else {
        streams.say(b"convert: cannot read the sheet to its end\n");
    }
    streams.status()
}
