// A night of the solver, on the outputs and rooms of the input.
use crate::read::Input;
use crate::say;
use lapjv::Sums;
use matrix::Refusal;
use std::io;
use std::io::{Read, Write};

const MARK: u32 = 2779096485;

const WIDE_MARK: i64 = -6510615555426900571;

// The outputs and rooms. Whatever the solver has to leave holds the mark.
#[derive(Drop)]
struct Lists {
    cols: [u32; 1028],
    rows: [u32; 1028],
    us: [i64; 1028],
    vs: [i64; 1028],
    indices: [u32; 4104],
    numbers: [i64; 1028],
}

// Whether every entry is this one.
fn all<T: PartialEq + Copy>(list: &[T], entry: T) -> bool {
    list.iter().all(|x| *x == entry)
}

impl Lists {
    // The mark in every entry, written where they lie: an array of marks would lie on the stack beside them.
    fn new() -> Self {
        let mut lists = Lists {
            cols: [0; 1028],
            rows: [0; 1028],
            us: [0; 1028],
            vs: [0; 1028],
            indices: [0; 4104],
            numbers: [0; 1028],
        };
        lists.cols.fill(MARK);
        lists.rows.fill(MARK);
        lists.us.fill(WIDE_MARK);
        lists.vs.fill(WIDE_MARK);
        lists.indices.fill(MARK);
        lists.numbers.fill(WIDE_MARK);
        lists
    }

    // The solver on as much of each as the input says.
    fn solve(
        &mut self,
        input: &mut Input<impl Read>,
        n: usize,
        costs: &[i32],
    ) -> Result<Sums, Refusal> {
        lapjv::solve(
            n,
            costs,
            input.lent(&mut self.cols),
            input.lent(&mut self.rows),
            input.lent(&mut self.us),
            input.lent(&mut self.vs),
            input.lent(&mut self.indices),
            input.lent(&mut self.numbers),
        )
    }

    // Whether everything behind n entries of each output, 4n indices and n numbers holds the mark, and those indices and numbers are 0.
    fn kept(&self, n: usize) -> bool {
        n <= 1024
            && all(&self.cols[n..], MARK)
            && all(&self.rows[n..], MARK)
            && all(&self.us[n..], WIDE_MARK)
            && all(&self.vs[n..], WIDE_MARK)
            && all(&self.indices[..4 * n], 0)
            && all(&self.indices[4 * n..], MARK)
            && all(&self.numbers[..n], 0)
            && all(&self.numbers[n..], WIDE_MARK)
    }

    // The line of a night that is paired.
    fn say(&self, out: &mut impl Write, n: usize) -> io::Result<()> {
        say::list(out, &self.cols, n)?;
        say::list(out, &self.rows, n)?;
        say::list(out, &self.vs, n)?;
        say::list(out, &self.us, n)
    }
}

// The night's line. Not inlined, as the two in checks.rt, so that the lists of one alone lie on the stack at once.
#[inline(never)]
pub fn night(
    input: &mut Input<impl Read>,
    out: &mut impl Write,
    n: usize,
    costs: &[i32],
) -> io::Result<()> {
    let mut lists = Lists::new();
    match lists.solve(input, n, costs) {
        Ok(sums) => {
            lists.say(out, n)?;
            say::sums(out, sums)?;
            say::kept(out, lists.kept(n))?;
            say::checked(
                out,
                checker::check(n, costs, &lists.cols, &lists.rows, &lists.us, &lists.vs),
            )
        }
        Err(refusal) => {
            say::refused(out, refusal)?;
            say::kept(out, lists.kept(0))
        }
    }
}
