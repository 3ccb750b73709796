// A view of one cartridge's record within a lent strip: N = 2 to the n records of 64 bytes end to end. `record` takes the
// strip as a plain slice, and any caller can use it. `Lent` holds the strip, for views of its cartridges.
#![tactic(auto)]

ghost use Rattle.std.specs.Prelude.{◌≡◌, ◌+◌, ◌*◌, ◌^◌, ◌≤◌, true, false, MatchOption};
ghost use Rattle.meaning.specs.Limits.{largest_n};
ghost use Rattle.view.specs.Viewing.{cartridge_bytes, has_record, record_of, place_of};

use meaning::limits;

// Bytes of a cartridge's record.
pub const BYTES: usize = 64;

// The largest n of a strip.
const LARGEST: usize = limits::LARGEST_N;

// N, 2 to the n.
fn size_of(n: usize) -> usize
    requires { n ≤ largest_n }
    ensures { result ≡ 2 ^ n }
{
    1 << n
}

// Where the record of cartridge `at` starts in a strip of `len` bytes. There is none with n above limits::LARGEST_N, at a
// position of N or more, and in a strip that is not N records long.
fn start_of(len: usize, n: usize, at: usize) -> Option<usize>
    ensures { MatchOption result (has_record n at len ≡ false) (λ start. (has_record n at len ≡ true) × (start ≡ at * cartridge_bytes) × (start + cartridge_bytes ≤ len)) }
{
    if LARGEST < n {
        return None;
    }
    let size = size_of(n);
    if size <= at {
        return None;
    }
    if len != size * BYTES {
        return None;
    }
    let start = at * BYTES;
    Some(start)
}

// The record of cartridge `at`, as a part of the strip. It is empty with n above limits::LARGEST_N, at a position of N or
// more, and of a strip that is not N records long.
pub fn record<'a>(strip: &'a [u8], n: usize, at: usize) -> &'a [u8]
    ensures { (result.now ≡ record_of strip.now n at) × (result.ref_ptr ≡ place_of strip.entry n at) }
{
    match start_of(strip.len(), n, at) {
        Some(start) => {
            let end = start + BYTES;
            &strip[start..end]
        }
        None => &strip[..0],
    }
}

// A lent strip of 2 to the n records.
#[derive(Clone, Copy)]
pub struct Lent<'a> {
    pub strip: &'a [u8],
    pub n: usize,
}

// The strip, lent for views of its cartridges.
pub fn view<'a>(strip: &'a [u8], n: usize) -> Lent<'a>
    ensures { (result.strip ≡ strip.entry) × (result.n ≡ n) }
{
    Lent { strip, n }
}

// The record of cartridge `at` of a lent strip. A function beside `view`, and no method: README names both so.
pub fn cartridge<'a>(v: Lent<'a>, at: usize) -> &'a [u8]
    ensures { (result.now ≡ record_of v.entry.strip.now v.entry.n at) × (result.ref_ptr ≡ place_of v.entry.strip v.entry.n at) }
{
    record(v.strip, v.n, at)
}
