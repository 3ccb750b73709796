// An input cut into pieces of `size` bytes end to end, of which the last may be short: piece i starts at byte i * size.
ghost use Rattle.std.specs.Prelude.{◌≡◌};
ghost use Rattle.meaning.specs.Stream.{rounded_up, piece_end};

// How many pieces an input of `len` bytes has: len divided by size, rounded up; 0 where size is 0.
pub fn count(len: usize, size: usize) -> usize
    ensures { result ≡ rounded_up len size }
{
    if size == 0 { 0 } else { len.div_ceil(size) }
}

// Where piece i ends: size bytes behind its start, or at the end of the input, whichever comes first.
pub fn end(i: usize, size: usize, len: usize) -> usize
    ensures { result ≡ piece_end size len i }
{
    if size == 0 {
        return 0;
    }
    if len / size <= i { len } else { (i + 1) * size }
}
