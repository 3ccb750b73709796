// The test of what a caller hands over, as far as the descent does not test it.
ghost use Rattle.std.specs.Prelude.{◌≡◌};
ghost use Rattle.system.specs.Solving.{spaced};

use descent::WIDEST;

// Whether there is a check of length r, and `eqs` words are r rows of w words more than `vals` words.
pub fn spaced(r: usize, w: usize, vals: usize, eqs: usize) -> bool
    ensures { result ≡ spaced r w vals eqs }
{
    sheet::is_check_length(r) && w <= WIDEST && vals <= eqs && eqs - vals == r * w
}
