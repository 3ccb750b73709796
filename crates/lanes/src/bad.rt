// The lanes in which an equation with no coefficient has the constant 1: a bit for each, in eight words.
ghost use Rattle.std.specs.Prelude.{◌≡◌, ◌+◌, ◌≤◌, ◌<◌, length, MatchOption};
ghost use Rattle.bits.specs.Rows.{rows_of};
ghost use Rattle.lanes.specs.Lanes.{first_unsound};
ghost use Rattle.lanes.specs.Inner.{Added, Collected};

use crate::{Rows, row};

// Adds the lanes in which a row has the constant 1.
fn add(bad: &mut [u64; 8], x: &[u64], c: usize)
    requires { c + 9 ≤ length x.now }
    ensures { Added c x.now bad.old bad.new }
{
    for k in 0..8 {
        bad[k] |= row::word(x, c, k);
    }
}

// The lanes of all rows with no coefficient.
fn collect(eqs: Rows) -> [u64; 8]
    ensures { Collected eqs.entry.c (rows_of eqs.entry.w eqs.entry.words.now) result }
{
    let mut bad = [0; 8];
    for x in eqs.iter() {
        if !gf2::led(x, eqs.c) {
            add(&mut bad, x, eqs.c);
        }
    }
    bad
}

// The first lane in which an equation with no coefficient has the constant 1.
pub fn first(eqs: Rows) -> Option<usize>
    ensures { let t = first_unsound eqs.entry.c (rows_of eqs.entry.w eqs.entry.words.now) in MatchOption result (512 ≤ t) (λ l. (l < 512) × (l ≡ t)) }
{
    let bad = collect(eqs);
    let k = bad.iter().position(|lanes| *lanes != 0)?;
    Some(64 * k + bad[k].trailing_zeros() as usize)
}
