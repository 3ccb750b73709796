// Systems that are judged: whether they have a solution. Each check is proved from the laws of gf2.
ghost use Rattle.std.specs.Prelude.{◌≡◌};
ghost use Rattle.solve.specs.Verdicts.{verdict_of};

use crate::verdict;
use crate::verdict::Verdict;

// Judges a system, prints the verdict and checks that it is v.
fn judge(rt: &HostRuntime, eqs: &mut [u64], c: usize, w: usize, v: Verdict)
    requires { verdict_of c w eqs.old ≡ v }
{
    let got = verdict::solvable(eqs, c, w);
    let _ = println!(rt; "{got}");
    check::expect(got == v);
}

// x0 + x64 = 1 and x65 = 1.
pub fn sound(rt: &HostRuntime) {
    let mut eqs = [1u64, 1, 1, 0, 2, 1];
    judge(rt, &mut eqs, 2, 3, Verdict::Solvable);
}

// x0 + x1 = 1, x1 + x2 = 0 and x0 + x2 = 0, whose sum is 0 = 1.
pub fn contradiction(rt: &HostRuntime) {
    let mut eqs = [3u64, 1, 6, 0, 5, 0];
    judge(rt, &mut eqs, 1, 2, Verdict::Not);
}

// No word is left for the constant.
pub fn no_constant(rt: &HostRuntime) {
    let mut eqs = [3u64, 1];
    judge(rt, &mut eqs, 2, 2, Verdict::Misfit);
}
