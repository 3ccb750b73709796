// The elimination itself, on slices whose shapes fit: rows swept, each equation in turn.
ghost use Rattle.std.specs.Prelude.{◌≡◌, ℕ, ◌+◌, ◌*◌, ◌/◌, ◌%◌, ◌≤◌, ◌<◌, length};
ghost use Rattle.bits.specs.Vectors.{bit};
ghost use Rattle.bits.specs.Rows.{rows_of};
ghost use Rattle.gf2.specs.Solve.{clear_at, sys, step, solve};
ghost use Rattle.gf2.specs.Inner.{LastUsed, over};

// The last word that is not 0.
fn last_used(x: &[u64]) -> Option<usize>
    ensures { LastUsed x.now result }
{
    x.iter().rposition(|word| *word != 0)
}

// Adds `row` to those of the n rows of `dst` that have bit j of word k. By place: after `chunks_exact_mut` a proof knows no element.
fn sweep(dst: &mut [u64], n: usize, row: &[u64], k: usize, j: u32)
    requires { (n * length row.now ≤ length dst.old) × (k < length row.now) × (j < 64) }
    ensures { dst.new ≡ over (length row.now) n (clear_at k j row.now) dst.old }
{
    let w = row.len();
    let mut at = 0;
    for _ in 0..n {
        if (dst[at + k] >> j) % 2 == 1 {
            bits::rows::add(dst, at, row, 0, w);
        }
        at += w;
    }
}

// Equation i takes its highest coefficient out of all other rows. Whether it has one.
fn pivot(eqs: &mut [u64], rest: &mut [u64], i: usize, c: usize, w: usize) -> bool
    requires { (i < length eqs.old / w) × (length eqs.old % w ≡ 0) × (length rest.old % w ≡ 0) × (c ≤ w) × (0 < w) }
    ensures { (n : ℕ) → sys (rows_of w eqs.new) (rows_of w rest.new) (n + bit result)
        ≡ step c i (sys (rows_of w eqs.old) (rows_of w rest.old) n) }
{
    let m = eqs.len() / w;
    let q = rest.len() / w;
    let (before, others) = eqs.split_at_mut(i * w);
    let (row, after) = others.split_at_mut(w);
    let Some(k) = last_used(&row[..c]) else {
        return false;
    };
    let j = 63 - row[k].leading_zeros();
    sweep(before, i, row, k, j);
    sweep(after, m - i - 1, row, k, j);
    sweep(rest, q, row, k, j);
    true
}

// Each equation in turn. The shapes fit. c and w go side by side, as in the signature of `eliminate`, which may not change.
pub fn run(eqs: &mut [u64], rest: &mut [u64], c: usize, w: usize) -> usize
    requires { (length eqs.old % w ≡ 0) × (length rest.old % w ≡ 0) × (c ≤ w) × (0 < w) }
    ensures { sys (rows_of w eqs.new) (rows_of w rest.new) result ≡ solve c (rows_of w eqs.old) (rows_of w rest.old) }
{
    let mut rank = 0;
    for i in 0..eqs.len() / w {
        if pivot(eqs, rest, i, c, w) {
            rank += 1;
        }
    }
    rank
}
