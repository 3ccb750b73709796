// Rows of words in lent slices: w words from a place on. Every public function is total. Where a row does not lie within its
// slice, or two rows of one slice overlap, nothing is changed.
ghost use Rattle.std.specs.Prelude.{◌≡◌, ◌+◌, ◌≤◌, ◌⊎◌, ◌↔◌, IsTrue, length};
ghost use Rattle.bits.specs.Rows.{zeroed, copied, added, copied_within, added_within, ◌⊻◌};

// Whether the w words from `at` on lie within n words.
fn lies(n: usize, at: usize, w: usize) -> bool
    ensures { IsTrue result ↔ (at + w ≤ n) }
{
    at <= n && w <= n - at
}

// Whether two rows lie within n words and have none in common.
fn apart(n: usize, a: usize, b: usize, w: usize) -> bool
    ensures { IsTrue result ↔ ((a + w ≤ n) × (b + w ≤ n) × ((a + w ≤ b) ⊎ (b + w ≤ a))) }
{
    lies(n, a, w) && lies(n, b, w) && (a + w <= b || b + w <= a)
}

// The row y is added, by XOR, to the row x, which is as long. By index: after a zip of `iter_mut` a proof knows no element.
fn xor(x: &mut [u64], y: &[u64])
    requires { length y.now ≡ length x.old }
    ensures { x.new ≡ x.old ⊻ y.now }
{
    for (k, word) in x.iter_mut().enumerate() {
        *word ^= y[k];
    }
}

// The w words of `d` from `to` on become 0.
pub fn zero(d: &mut [u64], to: usize, w: usize)
    ensures { d.new ≡ zeroed d.old to w }
{
    if lies(d.len(), to, w) {
        d[to..to + w].fill(0);
    }
}

// The row of `s` at `from` goes to `to`.
pub fn copy(d: &mut [u64], to: usize, s: &[u64], from: usize, w: usize)
    ensures { d.new ≡ copied d.old to s.now from w }
{
    if lies(d.len(), to, w) && lies(s.len(), from, w) {
        d[to..to + w].copy_from_slice(&s[from..from + w]);
    }
}

// The row of `s` at `from` is added, by XOR, to the row at `to`.
pub fn add(d: &mut [u64], to: usize, s: &[u64], from: usize, w: usize)
    ensures { d.new ≡ added d.old to s.now from w }
{
    if lies(d.len(), to, w) && lies(s.len(), from, w) {
        xor(&mut d[to..to + w], &s[from..from + w]);
    }
}

// The row at `from` goes to `to`.
pub fn copy_within(v: &mut [u64], to: usize, from: usize, w: usize)
    ensures { v.new ≡ copied_within v.old to from w }
{
    if apart(v.len(), to, from, w) {
        v.copy_within(from..from + w, to);
    }
}

// The row at `from` is added, by XOR, to the row at `to`.
pub fn add_within(v: &mut [u64], to: usize, from: usize, w: usize)
    ensures { v.new ≡ added_within v.old to from w }
{
    if !apart(v.len(), to, from, w) {
        return;
    }
    if from < to {
        let (low, high) = v.split_at_mut(to);
        xor(&mut high[..w], &low[from..from + w]);
    } else {
        let (low, high) = v.split_at_mut(from);
        xor(&mut low[to..to + w], &high[..w]);
    }
}
