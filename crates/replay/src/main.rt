// Replays the nights of the file `stdin` through the solver, the checker and `cost`, and writes a line for each.
//
// Every number of the input has 4 bytes, the lowest first, but a side and a price have 8. The first says how many nights follow. Of each:
// 0 for the solver, 1 for the checker, 2 for `cost`; how many bytes its name has, at most 128, and these; the side; how many costs are
// lent; how many of these are given, which those behind repeat; the costs given; a place, and the cost that stands there if it is lent.
// Then, for the solver: how many entries are lent of each output, of the indices and of the numbers. For the checker: columns, rows, row
// prices, column prices; of each how many are lent, how many of these are given, and these. For `cost`: columns, in the same way.
//
// The line begins with the name. That of a night that the solver paired has columns by row, rows by column, column prices, row prices, the
// total, the six counts, "kept" where everything that the solver has to leave is left and its rooms are cleared, and the checker's total.
// That of one which it refused has "refused", number, place, and "kept" as well. That of the checker or of `cost` has "accepted total" and
// the total, or "refused", number, "place" and place.
#![tactic(auto)]

mod checks;
mod read;
mod say;
mod solver;

use read::Input;
use std::io;
use std::io::{BufReader, BufWriter, Read, Write};

// By whom a night is answered: 0 the solver, 1 the checker, any other number `cost`.
#[derive(Clone, Copy, Debug, PartialEq, Eq)]
enum Kind {
    Solver,
    Checker,
    Cost,
}

impl From<usize> for Kind {
    fn from(number: usize) -> Kind {
        match number {
            0 => Kind::Solver,
            1 => Kind::Checker,
            _ => Kind::Cost,
        }
    }
}

// What every night begins with, and the night.
fn night(input: &mut Input<impl Read>, out: &mut impl Write, costs: &mut [i32]) -> io::Result<()> {
    let kind = Kind::from(input.number());
    input.name(out)?;
    let n = input.long();
    let lent = input.costs(costs);
    match kind {
        Kind::Solver => solver::night(input, out, n, lent)?,
        Kind::Checker => checks::checked(input, out, n, lent)?,
        Kind::Cost => checks::totalled(input, out, n, lent)?,
    }
    out.write_all(b"\n")
}

fn nights(input: &mut Input<impl Read>, out: &mut impl Write, costs: &mut [i32]) -> io::Result<()> {
    for _ in 0..input.number() {
        night(input, out, costs)?;
    }
    Ok(())
}

fn main(rt: HostRuntime) -> io::Result<()> {
    let mut input = Input::new(BufReader::new(rt.alloc(), rt.stdin())?);
    let mut out = BufWriter::new(rt.alloc(), rt.stdout())?;
    let mut costs = vec![in rt.alloc(); 0i32; 1050625]?;
    nights(&mut input, &mut out, &mut costs)?;
    out.flush()?;
    input.end()
}
