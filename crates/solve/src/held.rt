// Systems that are held to what must be left of them, too: each check is proved from the promise of `eliminate`.
// One function for each system, since what must be left of each is a theorem of its own.
ghost use Rattle.std.specs.Prelude.{◌≡◌};
ghost use Rattle.gf2.specs.Solve.{done, solved};

use crate::print;

// Solves a system and checks all that is left of it: the words e and r, and the rank.
fn hold(
    rt: &HostRuntime,
    eqs: &mut [u64],
    rest: &mut [u64],
    c: usize,
    w: usize,
    e: &[u64],
    r: &[u64],
    rank: Option<usize>,
)
    requires { solved c w eqs.old rest.old ≡ done e.now r.now rank }
{
    let got = print::solve(rt, eqs, rest, c, w);
    check::expect(got == rank);
    check::expect(*eqs == *e);
    check::expect(*rest == *r);
}

// x0 + x1 = 1 and x1 = 1, with x0 to be reduced: x0 = 0 and x1 = 1.
pub fn unique(rt: &HostRuntime) {
    let mut eqs = [3u64, 1, 2, 1];
    let mut rest = [1u64, 0];
    let e = [2u64, 1, 1, 0];
    let r = [0u64, 0];
    hold(rt, &mut eqs, &mut rest, 1, 2, &e, &r, Some(2));
}

// Two words of coefficients. x0 + x64 = 1 and x65 = 1: x64 is x0 + 1, and x0 is free.
pub fn ambiguous(rt: &HostRuntime) {
    let mut eqs = [1u64, 1, 1, 0, 2, 1];
    let mut rest = [0u64, 1, 0, 0, 2, 0];
    let e = [1u64, 1, 1, 0, 2, 1];
    let r = [1u64, 0, 1, 0, 0, 1];
    hold(rt, &mut eqs, &mut rest, 2, 3, &e, &r, Some(2));
}

// x0 = 1 and x0 = 0: an equation with no coefficient has the constant 1.
pub fn inconsistent(rt: &HostRuntime) {
    let mut eqs = [1u64, 1, 1, 0];
    let mut rest = [1u64, 0];
    let e = [1u64, 1, 0, 1];
    let r = [0u64, 1];
    hold(rt, &mut eqs, &mut rest, 1, 2, &e, &r, Some(1));
}

// Three words are no rows of two: nothing is changed.
pub fn misfit(rt: &HostRuntime) {
    let mut eqs = [1u64, 1, 1];
    let mut rest = [0u64, 1];
    let e = [1u64, 1, 1];
    let r = [0u64, 1];
    hold(rt, &mut eqs, &mut rest, 1, 2, &e, &r, None);
}

// Two words of coefficients and two that ride along; the third equation is the sum of the others.
pub fn wide(rt: &HostRuntime) {
    let mut eqs = [5u64, 1, 1, 7, 4, 1, 2, 9, 1, 0, 3, 14];
    let mut rest = [4u64, 0, 0, 0];
    let e = [4u64, 1, 2, 9, 1, 0, 3, 14, 0, 0, 0, 0];
    let r = [4u64, 0, 0, 0];
    hold(rt, &mut eqs, &mut rest, 2, 4, &e, &r, Some(2));
}

// A constant rides along, and a mark for each equation: the third equation is left as the sum of all three.
pub fn marked(rt: &HostRuntime) {
    let mut eqs = [6u64, 3, 3, 4, 5, 9];
    let mut rest = [7u64, 0, 4, 1];
    let e = [5u64, 7, 3, 4, 0, 14];
    let r = [1u64, 3, 1, 6];
    hold(rt, &mut eqs, &mut rest, 1, 2, &e, &r, Some(2));
}
