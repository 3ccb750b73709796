// The test of what a caller hands over.
ghost use Rattle.std.specs.Prelude.{◌≡◌};
ghost use Rattle.checks.specs.Checking.{spaced, check_fits};

use descent::WIDEST;

// Whether rows of w words have a word c for the constant, and r of them behind the first m lie within `eqs` words.
fn spaced(r: usize, c: usize, w: usize, m: usize, eqs: usize) -> bool
    ensures { result ≡ spaced r c w m eqs }
{
    // One test at a time: each has a law of its own to cite (proofs/Testing), and a chain would be no plainer.
    if WIDEST < w {
        return false;
    }
    if w <= c {
        return false;
    }
    let room = eqs / w;
    if room < r {
        return false;
    }
    m <= room - r
}

// Whether all that a caller hands over fits together.
// Lengths and numbers as they come in: there is nothing yet that they could be fields of.
pub fn fits(
    n: usize,
    sheet: usize,
    r: usize,
    c: usize,
    w: usize,
    us: usize,
    m: usize,
    eqs: usize,
) -> bool
    ensures { result ≡ check_fits n sheet r c w us m eqs }
{
    // One test at a time, as above.
    if !sheet::recorded(n, sheet) {
        return false;
    }
    if !sheet::is_check_length(r) {
        return false;
    }
    if !spaced(r, c, w, m, eqs) {
        return false;
    }
    us == sheet::size(n) * w
}
