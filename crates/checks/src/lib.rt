// The check's rows, behind the equations of a descent.
#![tactic(auto)]

ghost use Rattle.std.specs.Prelude.{◌≡◌};
ghost use Rattle.checks.specs.Checking.{checked, checking};

mod limits;
mod register;

// Appends the r rows of the check to the first m rows of `eqs`: the remainder of r rows of the constant and the free rows of
// `us` by the check polynomial of length r, which is 0, 6 or 11. Rows have w words as in a descent, the constant in word c.
// Answers false, and changes nothing, unless n is at most limits::LARGEST_N, the sheet has N = 2 to the n records, there is a check of
// length r, c is below w, w is at most 65536, `us` has N w words, and `eqs` has at least (m + r) w.
// Numbers one by one, as in the definition that its clause names: a struct for them would only be taken apart there.
pub fn check_rows(
    n: usize,
    sheet: &[u8],
    r: usize,
    c: usize,
    w: usize,
    us: &[u64],
    m: usize,
    eqs: &mut [u64],
) -> bool
    ensures { checked result eqs.new ≡ checking n sheet.now r c w us.now m eqs.old }
{
    if !limits::fits(n, sheet.len(), r, c, w, us.len(), m, eqs.len()) {
        return false;
    }
    let size = sheet::size(n);
    let from = m * w;
    let to = (m + r) * w;
    register::write(sheet, size, us, w, c, r, &mut eqs[from..to]);
    true
}
