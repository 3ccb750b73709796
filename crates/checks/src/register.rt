// The check's shift register, over one column of words at a time: XOR of rows goes word by word. It is a ring, so that a shift
// moves its first place and not its words.
ghost use Rattle.std.specs.Prelude.{◌≡◌, ◌+◌, ◌*◌, ◌<◌, ◌≤◌, true, length, replicate};
ghost use Rattle.meaning.specs.Answers.{check_length};
ghost use Rattle.checks.specs.Registers.{unit_word, slot, turned, taps, plus_at, tapped, fed, remainder, Put, ColumnsUpTo};

// Where the check polynomial of length r has a term, from D^(r-1) at place 0 on.
fn taps(r: usize) -> &'static [usize]
    ensures { result.now ≡ taps r }
{
    match r {
        6 => &[0, 5],
        11 => &[0, 1, 5, 10],
        _ => &[],
    }
}

// Word k of the constant's row.
fn unit_word(c: usize, k: usize) -> u64
    ensures { result ≡ unit_word c k }
{
    u64::from(k == c)
}

// A register of N words, a ring that starts at its first place.
#[derive(Drop)]
struct Ring<const N: usize> {
    words: [u64; N],
    first: usize,
    ghost inside: { first < N },
    ghost short: { N ≤ 11 },
}

impl<const N: usize> Ring<N> {
    // The register whose words are all x.
    fn new(x: u64) -> Self
        requires { (0 < N) × (N ≤ 11) }
        ensures { turned result.words result.first ≡ replicate N x }
    {
        Ring {
            words: [x; N],
            first: 0,
        }
    }

    // Where place j of the register stands.
    fn slot(&self, j: usize) -> usize
        requires { j ≤ N }
        ensures is { result ≡ slot N self.now.first j }
        ensures inside { result < N }
    {
        let x = self.first + j;
        if x < N { x } else { x - N }
    }

    // Adds o to place j.
    fn add_at(&mut self, j: usize, o: u64)
        requires { j < N }
        ensures { turned self.new.words self.new.first ≡ plus_at (turned self.old.words self.old.first) j o }
    {
        let x = self.slot(j);
        self.words[x] ^= o;
    }

    // Adds o wherever the check polynomial of length N has a term.
    fn add_taps(&mut self, o: u64)
        ensures { turned self.new.words self.new.first ≡ tapped N (turned self.old.words self.old.first) o }
    {
        let places = taps(N);
        for j in places {
            self.add_at(*j, o);
        }
    }

    // Feeds a word to the register: it takes the place of the word that goes out.
    fn feed(&mut self, b: u64)
        ensures { turned self.new.words self.new.first ≡ fed N (turned self.old.words self.old.first) b }
    {
        let h = self.first;
        let o = self.words[h];
        self.words[h] = b;
        self.first = self.slot(1);
        self.add_taps(o);
    }

    // The register once word k of each free row of `us` is fed. It starts from the check's leading ones, word k of the constant's
    // row each.
    fn divide(sheet: &[u8], size: usize, us: &[u64], w: usize, c: usize, k: usize) -> Self
        requires { (0 < N) × (N ≤ 11) × (length us.now ≡ size * w) × (k < w) }
        ensures { turned result.words result.first ≡ remainder N sheet.now size us.now w c k }
    {
        let mut ring = Ring::new(unit_word(c, k));
        // By an index: a column is one word of each row, and so no part of `us`.
        for i in 0..size {
            if sheet::is_free(sheet, i) {
                ring.feed(us[i * w + k]);
            }
        }
        ring
    }

    // The register becomes word k of each row.
    fn put(&self, out: &mut [u64], w: usize, k: usize)
        requires { (length out.old ≡ N * w) × (k < w) }
        ensures { Put w k (turned self.now.words self.now.first) out.old out.new }
    {
        // By an index: what is written through `chunks_exact_mut` is not known afterwards.
        for j in 0..N {
            out[j * w + k] = self.words[self.slot(j)];
        }
    }

    // All words of the check's rows, column by column.
    fn columns(sheet: &[u8], size: usize, us: &[u64], w: usize, c: usize, out: &mut [u64])
        requires { (0 < N) × (N ≤ 11) × (length us.now ≡ size * w) × (length out.old ≡ N * w) }
        ensures { ColumnsUpTo N w (remainder N sheet.now size us.now w c) w out.new }
    {
        for k in 0..w {
            let ring = Ring::<N>::divide(sheet, size, us, w, c, k);
            ring.put(out, w, k);
        }
    }
}

// The same for a check of length r; nothing where there is no check.
pub fn write(sheet: &[u8], size: usize, us: &[u64], w: usize, c: usize, r: usize, out: &mut [u64])
    requires { (check_length r ≡ true) × (length us.now ≡ size * w) × (length out.old ≡ r * w) }
    ensures { ColumnsUpTo r w (remainder r sheet.now size us.now w c) w out.new }
{
    match r {
        6 => Ring::<6>::columns(sheet, size, us, w, c, out),
        11 => Ring::<11>::columns(sheet, size, us, w, c, out),
        _ => {}
    }
}
