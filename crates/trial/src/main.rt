// Answers requests that stand on standard input one after the other, each by one call of a public
// function of the other crates, so that any second implementation can be held to them. docs/TRIAL.md
// says what a request and an answer are. Numbers are low byte first.
#![tactic(auto)]

ghost use Rattle.std.specs.Prelude.{◌≡◌, ◌+◌, ◌<◌, ◌≤◌, ◌%◌, length, replicate};
ghost use Rattle.trial.specs.Layout.{two_at, four_at, Says, Spells};

mod ops;

use intake::{Streams, Turn};
use meaning::Answer;
use std::io::Read;
use std::process::ExitCode;

// The most bytes that a request may give for each of a, b and c.
const MOST: usize = 40000;

// Room for all three.
const ROOM: usize = 3 * MOST;

// The most bytes that a request may ask for as its output.
const MOST_OUT: usize = 140000;

// What a request's header says: the call, its numbers, and the lengths of a, b, c and the output.
#[derive(Clone, Copy)]
struct Request {
    op: usize,
    n: usize,
    r: usize,
    ceiling: usize,
    a: usize,
    b: usize,
    c: usize,
    o: usize,
}

// The five numbers of what the call that a request names answers, on its numbers and bytes: of a view, how many bytes it
// has stand for the place. None where no call has the op. A new op is a new arm: an op is a number of the request, not a kind.
fn call(q: Request, a: &[u8], b: &[u8], c: &[u8], out: &mut [u8]) -> Option<[usize; 5]> {
    let Request {
        op,
        n,
        r,
        ceiling,
        ..
    } = q;
    let answer: Answer = match op {
        0 => sheet::check_sheet(n, a, r).into(),
        1 => codec::encode(n, a, r, b, out).into(),
        2 => decoder::decode(n, a, r, ceiling, b, out).into(),
        3 => codec::read_back(n, a, r, b, out).into(),
        4 => stream::answer(a, c, b, out).into(),
        5 => sheet_convert::convert(n, a, out).into(),
        7 => strips::repair(n, a, r, ceiling, b, c, out).into(),
        8 => return Some([0, ops::put_view(a, n, r, out), 0, 0, 0]),
        15 => ops::repair_strips(n, r, a, c, b, out).into(),
        _ => return None,
    };
    Some(answers::numbers(answer))
}

// The number that stands in two bytes of a header.
fn two(head: &[u8; 24], at: usize) -> usize
    requires { at + 1 < 24 }
    ensures { (result ≡ two_at head.now at) × (result < 65536) }
{
    usize::from(u16::from_le_bytes([head[at], head[at + 1]]))
}

// The number that stands in four bytes of a header.
fn four(head: &[u8; 24], at: usize) -> usize
    requires { at + 3 < 24 }
    ensures { result ≡ four_at head.now at }
{
    two(head, at) + 65536 * two(head, at + 2)
}

// What the 24 bytes of a header say.
fn parse(head: &[u8; 24]) -> Request
    ensures { Says head.now result }
{
    Request {
        op: two(head, 0),
        n: two(head, 2),
        r: two(head, 4),
        ceiling: two(head, 6),
        a: four(head, 8),
        b: four(head, 12),
        c: four(head, 16),
        o: four(head, 20),
    }
}

// The ten bytes that an answer starts with.
fn start(v: [usize; 5]) -> [u8; 10]
    ensures { Spells v result }
{
    let [code, place, g, m, d] = v;
    let code = answers::two_bytes(code);
    let place = answers::two_bytes(place);
    let g = answers::two_bytes(g);
    let m = answers::two_bytes(m);
    let d = answers::two_bytes(d);
    [
        code[0], code[1], place[0], place[1], g[0], g[1], m[0], m[1], d[0], d[1],
    ]
}

// Fills s from standard input; answers whether there was enough.
fn read(streams: &Streams, s: &mut [u8]) -> bool {
    streams.runtime().stdin().read_exact(s).is_ok()
}

// Writes s to standard output, or says on standard error that it cannot; answers whether it could.
fn write(streams: &Streams, s: &[u8]) -> bool {
    let written = streams.put(&mut streams.output(), s).is_ok();
    if !written {
        streams.say(b"trial: cannot write\n");
    }
    written
}

// Makes the call of a request on its body (a, b, c) and writes the answer; answers whether to go on.
fn respond(streams: &Streams, q: Request, body: &[u8], out: &mut [u8]) -> bool
    requires { q.a + q.b + q.c ≡ length body.now }
{
    let (a, rest) = body.split_at(q.a);
    let (b, c) = rest.split_at(q.b);
    match call(q, a, b, c, out) {
        Some(numbers) => write(streams, &start(numbers)) && write(streams, out),
        None => false,
    }
}

// Puts 165 into every byte of out.
fn blank(out: &mut [u8])
    ensures { out.new ≡ replicate (length out.old) 165 }
{
    out.fill(165);
}

// Reads the body of a request into the part lent for it, and responds; answers whether to go on.
fn serve(streams: &Streams, q: Request, body: &mut [u8], out: &mut [u8]) -> bool
    requires { q.a + q.b + q.c ≡ length body.old }
{
    if !read(streams, body) {
        return false;
    }
    blank(out);
    respond(streams, q, body, out)
}

// Serves a request in the room lent, if it asks for no more; answers whether to go on.
fn place(streams: &Streams, q: Request, room: &mut [u8; ROOM], out: &mut [u8; MOST_OUT]) -> bool {
    if MOST < q.a || MOST < q.b || MOST < q.c || MOST_OUT < q.o {
        return false;
    }
    let n = q.a + q.b + q.c;
    serve(streams, q, &mut room[..n], &mut out[..q.o])
}

// Takes one request from its header on, in the room lent; answers whether to go on.
fn turn(streams: &Streams, room: &mut [u8; ROOM], out: &mut [u8; MOST_OUT]) -> bool {
    let mut head = [0u8; 24];
    if !read(streams, &mut head) {
        return false;
    }
    place(streams, parse(&head), room, out)
}

// What a turn takes.
#[derive(Drop)]
struct Rooms<'a> {
    streams: &'a Streams,
    room: &'a mut [u8; ROOM],
    out: &'a mut [u8; MOST_OUT],
}

impl Turn for Rooms<'_> {
    fn turn(&mut self) -> bool {
        turn(self.streams, self.room, self.out)
    }
}

// Makes the room for a body and for the output, once, and takes the requests.
fn main(rt: HostRuntime) -> ExitCode {
    let streams = Streams::new(rt);
    let mut room = [0u8; ROOM];
    let mut out = [0u8; MOST_OUT];
    let mut rooms = Rooms {
        streams: &streams,
        room: &mut room,
        out: &mut out,
    };
    intake::take_turns(&mut rooms);
    streams.status()
}
