// The repaired records and their marks, read off the reduced rows.
ghost use Rattle.std.specs.Prelude.{◌≡◌, ◌+◌, ◌*◌, ◌/◌, ◌≤◌, ◌++◌, length, drop, map};
ghost use Rattle.bits.specs.Vectors.{tab};
ghost use Rattle.bits.specs.Rows.{rows_of};
ghost use Rattle.lanes.specs.Lanes.{row_byte, row_record, row_mark, row_repaired};
ghost use Rattle.lanes.specs.Inner.{record_rows};

use crate::{Rows, row};

// The record whose bits are a row's constants.
fn spell(x: &[u64], c: usize, out: &mut [u8])
    requires { (c + 9 ≤ length x.now) × (length out.old ≡ 64) }
    ensures { out.new ≡ tab 64 (row_byte c x.now) }
{
    // By index, since a proof knows nothing of what the parts that `chunks_exact_mut` lends come back as.
    for k in 0..8 {
        out[8 * k..8 * k + 8].copy_from_slice(&row::word(x, c, k).to_le_bytes());
    }
}

// The record that a row stands for: zeros where a coefficient is left.
fn record(x: &[u64], c: usize, out: &mut [u8])
    requires { (c + 9 ≤ length x.now) × (length out.old ≡ 64) }
    ensures { out.new ≡ row_record c x.now }
{
    if gf2::led(x, c) {
        out.fill(0);
    } else {
        spell(x, c, out);
    }
}

// Writes the records end to end.
fn records(vals: Rows, out: &mut [u8])
    requires { length out.old ≡ length vals.words.now / vals.w * 64 }
    ensures { let v = vals.entry in out.new ≡ record_rows v.c v.w v.words.now (length v.words.now / v.w) }
{
    // By index too.
    for (j, x) in vals.iter().enumerate() {
        record(x, vals.c, &mut out[j * 64..j * 64 + 64]);
    }
}

// Writes the marks.
fn marks(vals: Rows, out: &mut [u8])
    requires { length out.old ≡ length vals.words.now / vals.w }
    ensures { let v = vals.entry in out.new ≡ map (row_mark v.c) (rows_of v.w v.words.now) }
{
    // By index too.
    for (j, x) in vals.iter().enumerate() {
        out[j] = u8::from(gf2::led(x, vals.c));
    }
}

// Writes the repaired records, then the marks, 1 where a coefficient is left, else 0; later bytes are as found.
pub fn write(vals: Rows, out: &mut [u8])
    requires { 65 * (length vals.words.now / vals.w) ≤ length out.old }
    ensures { let v = vals.entry in out.new ≡ row_repaired v.c (rows_of v.w v.words.now) ++ drop (65 * (length v.words.now / v.w)) out.old }
{
    let n = vals.len();
    let (front, rest) = out.split_at_mut(n * 64);
    records(vals, front);
    marks(vals, &mut rest[..n]);
}

// `verdict`'s rows, as another crate has them: the marks, written by a closure.
#[cfg(test)]
mod tests {
    use super::*;

    #[test]
    fn by_a_closure(rt: HostRuntime) {
        let mut words = [1u64; 30];
        words[10] = 0;
        let vals = Rows::new(&words, 1, 10).ok().expect(&rt, "three rows");
        let mut out = [7u8; 4];
        vals.write(&mut out[..3], |x| u8::from(gf2::led(x, 1)));
        assert_eq!(rt; out, [1, 0, 1, 7]);
        // two places for three rows: nothing is changed
        vals.write(&mut out[2..], |x| u8::from(gf2::led(x, 1)));
        assert_eq!(rt; out, [1, 0, 1, 7]);
    }
}
