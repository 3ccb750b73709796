// How a program reads, and what it decides by what the system answered. Nothing says which bytes the system moves; what is done
// with its answers is promised here.
#![tactic(auto)]

ghost use Rattle.std.specs.Prelude.{◌≡◌, ◌-◌, ◌≤◌, length, take, IfOk};
ghost use Rattle.intake.specs.Decisions.{is_opened, Stopped, is_whole, counted, goes_on};
ghost use Rattle.intake.specs.Turns.{Ends};

mod streams;

use std::io;
use std::io::Read;
pub use streams::Streams;

// Whether a file is open, by the number that opening it answered. Nothing calls it: it stands for its promise and the two edits
// of it in must-fail, zero_is_refused and standard_numbers_refused.
pub fn opened(fd: i32) -> bool
    ensures { result ≡ is_opened fd }
{
    fd >= 0
}

// How reading ended: its room was full, there was no more to read, or a read failed, and why.
#[derive(Clone, Copy)]
pub enum End {
    Full,
    Ended,
    Failed(io::Error),
}

// How many bytes were read, and how reading ended.
#[derive(Clone, Copy)]
pub struct Got {
    pub n: usize,
    pub end: End,
}

impl Got {
    // Whether these bytes are all that there is to read, or all that the room holds.
    pub fn whole(&self, room: usize) -> bool
        ensures { result ≡ is_whole self.now.n room self.now.end }
    {
        self.n == room || matches!(self.end, End::Ended)
    }

    // How many of these bytes count: none where the file was not read to its end.
    pub fn counted(&self, room: usize) -> usize
        ensures { result ≡ counted (is_whole self.now.n room self.now.end) self.now.n }
    {
        if self.whole(room) { self.n } else { 0 }
    }
}

// Makes one read into buf behind its first n bytes, which stay as they are, and answers what it answered.
fn read_behind<R: Read>(from: &mut R, n: usize, buf: &mut [u8]) -> io::Result<usize>
    requires { n ≤ length buf.old }
    ensures kept { take n buf.new ≡ take n buf.old }
    ensures room { IfOk result (λ k. k ≤ length buf.new - n) }
{
    from.read(&mut buf[n..])
}

// Reads into buf until it is full, or a read answers 0, the end, or fails. After such an answer it reads no more, since the
// system may report a failure only once.
pub fn read<R: Read>(from: &mut R, buf: &mut [u8]) -> Got
    ensures n_in_bounds { result.n ≤ length buf.new }
    ensures stopped { Stopped result.n (length buf.new) result.end }
{
    let mut n = 0;
    // No `for`: a read brings any number of bytes.
    while n < buf.len() {
        match read_behind(from, n, buf) {
            Ok(0) => {
                return Got { n, end: End::Ended };
            }
            Ok(k) => n += k,
            Err(why) => {
                return Got {
                    n,
                    end: End::Failed(why),
                };
            }
        }
    }
    Got { n, end: End::Full }
}

// Whether to go on after a run: its records were written, and it was full.
pub fn goes_on(written: bool, got: usize, len: usize) -> bool
    ensures { result ≡ goes_on written got len }
{
    written && got == len
}

// How many turns were made, and whether there was more to come. Both say something in every case, so this is no Option.
#[derive(Clone, Copy)]
pub struct Progress {
    pub made: u64,
    pub more: bool,
}

// Takes turns until one answers that there is no more. They are counted, since a proved loop has to end and nothing says that the
// input does; no run of a program counts so many. What it asks is that a turn may be taken; `take_turns` asks nothing.
pub fn turns<F: FnMut() -> bool>(mut turn: F) -> Progress
    requires { F.IsAlwaysCallable turn }
    ensures { Ends result.made result.more }
{
    let mut made = 0u64;
    for _ in 0..u64::MAX {
        made += 1;
        if !turn() {
            return Progress { made, more: false };
        }
    }
    Progress { made, more: true }
}

// What takes turns.
pub trait Turn {
    // Takes a turn; answers whether there is more to come.
    fn turn(&mut self) -> bool;
}

// Takes the turns of what takes them, likewise.
pub fn take_turns<T: Turn>(of: &mut T) -> Progress
    ensures { Ends result.made result.more }
{
    turns(|| of.turn())
}

// Reads a file into buf, as far as it has room, and answers how many bytes. Where it cannot be opened or read to its end, says
// why on standard error, behind `label`, and answers 0.
pub fn load(streams: &Streams, path: &[u8], label: &[u8], buf: &mut [u8]) -> usize
    ensures { result ≤ length buf.new }
{
    let got = match streams.open(path) {
        Ok(mut file) => read(&mut file, buf),
        Err(why) => Got {
            n: 0,
            end: End::Failed(why),
        },
    };
    if let End::Failed(why) = got.end {
        streams.fail(label, Some(why));
    }
    got.counted(buf.len())
}

// Reads a file as `load` does, and answers what was read.
pub fn read_file<'a>(streams: &Streams, path: &[u8], label: &[u8], buf: &'a mut [u8]) -> &'a [u8]
    ensures { length result.now ≤ length buf.old }
{
    let n = load(streams, path, label, buf);
    &buf[..n]
}

// That turns are taken until one answers no more, by a closure and by what takes turns.
#[cfg(test)]
mod tests {
    use super::*;

    #[derive(Drop)]
    struct Left {
        n: u64,
    }

    impl Turn for Left {
        fn turn(&mut self) -> bool {
            self.n = self.n.saturating_sub(1);
            0 < self.n
        }
    }

    #[test]
    fn all_turns(rt: HostRuntime) {
        for n in [1, 2, 300] {
            let mut left = Left { n };
            let by_closure = turns(|| left.turn());
            let by_trait = take_turns(&mut Left { n });
            assert_eq!(rt;
                (by_closure.made, by_closure.more),
                (n, false),
                "a closure, {n}"
            );
            assert_eq!(rt; (by_trait.made, by_trait.more), (n, false), "a trait, {n}");
            assert_eq!(rt; left.n, 0, "what is left of {n}");
        }
    }
}
