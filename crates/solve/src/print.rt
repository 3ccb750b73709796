// Solving a system and printing what is left of it.
ghost use Rattle.std.specs.Prelude.{◌≡◌};
ghost use Rattle.gf2.specs.Solve.{done, solved};

// Prints the words on a line.
fn line(rt: &HostRuntime, v: &[u64]) {
    for x in v {
        let _ = print!(rt; " {x}");
    }
    let _ = println!(rt; "");
}

// Prints the rank on a line, or that there is none.
fn answer(rt: &HostRuntime, rank: Option<usize>) {
    let _ = match rank {
        Some(k) => println!(rt; "rank {k}"),
        None => println!(rt; "misfit"),
    };
}

// Eliminates, prints what is left, and answers as `eliminate` does.
pub fn solve(
    rt: &HostRuntime,
    eqs: &mut [u64],
    rest: &mut [u64],
    c: usize,
    w: usize,
) -> Option<usize>
    ensures { done eqs.new rest.new result ≡ solved c w eqs.old rest.old }
{
    let rank = gf2::eliminate(eqs, rest, c, w);
    answer(rt, rank);
    line(rt, eqs);
    line(rt, rest);
    rank
}
