// Solves some systems with gf2 and prints what it leaves of them: the rank, the equations' words, the words of the rest.
// A row is its coefficients, then what rides along. The systems of `held` and `judged` are checked too, and the checks are proved.
#![tactic(auto)]

mod held;
mod judged;
mod print;
mod shown;
mod verdict;

fn main(rt: HostRuntime) {
    held::unique(&rt);
    held::ambiguous(&rt);
    held::inconsistent(&rt);
    held::misfit(&rt);
    held::wide(&rt);
    held::marked(&rt);
    judged::sound(&rt);
    judged::contradiction(&rt);
    judged::no_constant(&rt);
    shown::top_bit(&rt);
    shown::only_coefficients(&rt);
    shown::only_riders(&rt);
    shown::zero_row(&rt);
    shown::dependent(&rt);
    shown::three_words(&rt);
    shown::no_equations(&rt);
    shown::no_rest(&rt);
    shown::no_width(&rt);
    shown::too_few_words(&rt);
    shown::odd_rest(&rt);
}
