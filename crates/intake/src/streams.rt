// The streams of a program. A program of today starts with the signal off by which the system ends one whose output has no reader
// any more; here it writes no more then, says nothing, and ends with the status that a shell tells of such an end.
ghost use Rattle.std.specs.Prelude.{◌≡◌, ◌≤◌, length};
ghost use Rattle.intake.specs.Decisions.{Stopped};

use crate::Got;
use std::cell::Cell;
use std::fs::File;
use std::io::{Cursor, ErrorKind, Stdout, Write};
use std::process::ExitCode;
use std::{fs, io};

// The status of a program whose output has no reader.
const CUT: u8 = 141;

// Room for what is said of an error.
const TEXT: usize = 320;

// Puts what is said of an error to the start of buf, its number too; answers how many bytes.
fn put_error(why: Option<io::Error>, buf: &mut [u8]) -> usize
    ensures { result ≤ length buf.new }
{
    let Some(why) = why else {
        return 0;
    };
    let mut to = Cursor::new(&mut *buf);
    let _ = write!(to, "{why}");
    let n = to.position() as usize;
    n.min(buf.len())
}

// The text of an error without the number that stands behind it.
fn without_number(text: &[u8]) -> &[u8] {
    let Ok(all) = str::from_utf8(text) else {
        return text;
    };
    match all.split_once(" (os error ") {
        Some((words, _)) => words.as_bytes(),
        None => text,
    }
}

// The system's number for bytes that are no text.
const NO_TEXT: i32 = 84;

// The name of a file as text. No file has a name here that is not text.
fn name_of(path: &[u8]) -> io::Result<&str> {
    match str::from_utf8(path) {
        Ok(name) => Ok(name),
        Err(_) => Err(io::Error::from_raw_os_error(NO_TEXT)),
    }
}

// The runtime, and whether a write found that its output has no reader.
#[derive(Drop)]
pub struct Streams {
    rt: HostRuntime,
    cut: Cell<bool>,
}

impl Streams {
    pub fn new(rt: HostRuntime) -> Streams {
        Streams {
            rt,
            cut: Cell::new(false),
        }
    }

    // The runtime.
    pub fn runtime(&self) -> &HostRuntime {
        &self.rt
    }

    // Standard output.
    pub fn output(&self) -> Stdout {
        self.rt.stdout()
    }

    // Reads standard input into buf as `read` does.
    pub fn read(&self, buf: &mut [u8]) -> Got
        ensures n_in_bounds { result.n ≤ length buf.new }
        ensures stopped { Stopped result.n (length buf.new) result.end }
    {
        crate::read(&mut self.rt.stdin(), buf)
    }

    // Opens a file to read it.
    pub fn open(&self, path: &[u8]) -> io::Result<File> {
        fs::open(&self.rt, name_of(path)?)
    }

    // Opens a file to write it: makes it, or empties the one that is there.
    pub fn create(&self, path: &[u8]) -> io::Result<File> {
        fs::create(&self.rt, name_of(path)?)
    }

    // Writes s to an output; nothing where one has no reader.
    pub fn put<W: Write>(&self, to: &mut W, s: &[u8]) -> io::Result<()> {
        if self.cut.get() {
            return Err(io::Error::from(ErrorKind::BrokenPipe));
        }
        match to.write_all(s) {
            Ok(()) => Ok(()),
            Err(why) => {
                self.cut.set(why.kind() == ErrorKind::BrokenPipe);
                Err(why)
            }
        }
    }

    // Says s on standard error.
    pub fn say(&self, s: &[u8]) {
        let _ = self.put(&mut self.rt.stderr(), s);
    }

    // Says on standard error what failed and, behind a colon, why.
    pub fn fail(&self, what: &[u8], why: Option<io::Error>) {
        let mut text = [0u8; TEXT];
        let n = put_error(why, &mut text);
        self.say(what);
        self.say(b": ");
        self.say(without_number(&text[..n]));
        self.say(b"\n");
    }

    // Writes s to an output, or says behind `label` why it cannot; answers whether it could.
    pub fn write<W: Write>(&self, to: &mut W, s: &[u8], label: &[u8]) -> bool {
        match self.put(to, s) {
            Ok(()) => true,
            Err(why) => {
                self.fail(label, Some(why));
                false
            }
        }
    }

    // The status to end with.
    pub fn status(&self) -> ExitCode {
        if self.cut.get() {
            ExitCode::from(CUT)
        } else {
            ExitCode::SUCCESS
        }
    }
}
