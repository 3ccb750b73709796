// Systems that are solved and printed.
use crate::print;

// Unknowns 0 and 63 in one word, with two words of constants.
pub fn top_bit(rt: &HostRuntime) {
    let mut eqs = [9223372036854775809u64, 1, 18446744073709551615, 1, 0, 5];
    let mut rest = [9223372036854775808u64, 0, 0];
    print::solve(rt, &mut eqs, &mut rest, 1, 3);
}

// Coefficients and nothing else: the rank of a matrix of 4 rows.
pub fn only_coefficients(rt: &HostRuntime) {
    let mut eqs = [6u64, 5, 3, 8];
    let mut rest = [15u64];
    print::solve(rt, &mut eqs, &mut rest, 1, 1);
}

// No coefficient: nothing to take out.
pub fn only_riders(rt: &HostRuntime) {
    let mut eqs = [7u64, 8, 9];
    let mut rest = [10u64, 11];
    print::solve(rt, &mut eqs, &mut rest, 0, 1);
}

// Four equations of which one is 0 = 0 and two are the same.
pub fn zero_row(rt: &HostRuntime) {
    let mut eqs = [0u64, 0, 12, 1, 12, 1, 10, 0];
    let mut rest = [4u64, 0, 8, 0, 6, 1];
    print::solve(rt, &mut eqs, &mut rest, 1, 2);
}

// Three equations that add up to 0 = 1; what rides along says so: the constant, then a mark for each equation.
pub fn dependent(rt: &HostRuntime) {
    let mut eqs = [3u64, 3, 6, 4, 5, 8];
    let mut rest = [7u64, 0];
    print::solve(rt, &mut eqs, &mut rest, 1, 2);
}

// Three words of coefficients and two that ride along.
pub fn three_words(rt: &HostRuntime) {
    let mut eqs = [
        1u64, 2, 4, 1, 17, 1, 2, 12, 2, 34, 3, 6, 4, 4, 68, 0, 1, 0, 8, 136, 5, 0, 8, 16, 255,
    ];
    let mut rest = [1u64, 1, 1, 0, 0, 0, 0, 8, 0, 0];
    print::solve(rt, &mut eqs, &mut rest, 3, 5);
}

// No equation: the rest stay as they are.
pub fn no_equations(rt: &HostRuntime) {
    let mut rest = [5u64, 6];
    print::solve(rt, &mut [], &mut rest, 1, 2);
}

// Nothing but equations.
pub fn no_rest(rt: &HostRuntime) {
    let mut eqs = [1u64, 1, 0, 1, 1, 0, 3, 1, 1];
    print::solve(rt, &mut eqs, &mut [], 2, 3);
}

// Rows of no words.
pub fn no_width(rt: &HostRuntime) {
    let mut eqs = [1u64, 2];
    let mut rest = [3u64];
    print::solve(rt, &mut eqs, &mut rest, 0, 0);
}

// More words of coefficients than words.
pub fn too_few_words(rt: &HostRuntime) {
    let mut eqs = [1u64, 2];
    let mut rest = [3u64, 4];
    print::solve(rt, &mut eqs, &mut rest, 3, 2);
}

// The rest are no whole rows.
pub fn odd_rest(rt: &HostRuntime) {
    let mut eqs = [1u64, 2, 3, 4];
    let mut rest = [3u64];
    print::solve(rt, &mut eqs, &mut rest, 1, 2);
}
