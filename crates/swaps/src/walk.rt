// The walk, turn by turn: its path, the marks of its nodes, and the choice to which each node has come, in lists of an entry for each node.
ghost use Rattle.std.specs.Prelude.{◌≡◌, false, ◌≤◌, ◌<◌, ◌^◌, not, eqb, length, set};
ghost use Rattle.lists.specs.Runs.{Finds};
ghost use Rattle.lists.specs.Permutations.{at};
ghost use Rattle.swaps.specs.Walks.{go_to};
ghost use Rattle.swaps.specs.Rooms.{walk_of, turned_at, over_to, lower_at};
ghost use Rattle.swaps.specs.Turning.{CanTurn, TurnedTo, CanWalk, WalkedTo};

use crate::accepted::Accepted;
use std::ops::ControlFlow;

// The marks of nodes: on the path, and done. They are numbers since they lie in memory that is lent; a node that has not been seen has 0.
pub const ON_PATH: u32 = 1;

pub const DONE: u32 = 2;

// The first node that is not done.
fn first_open(marks: &[u32]) -> Option<usize>
    ensures { Finds (length marks.now) (λ y. not (eqb (at marks.now y) 2)) result }
{
    marks.iter().position(|&mark| mark != DONE)
}

// The place of node y on a path.
fn place_of(path: &[u32], y: usize) -> Option<usize>
    ensures { Finds (length path.now) (λ k. eqb (at path.now k) y) result }
{
    path.iter().position(|&x| x as usize == y)
}

// Node x joins a path of this size.
fn enter(path: &mut [u32], marks: &mut [u32], size: usize, x: usize)
    requires { (size < length path.old) × (x < length marks.old) × (x < 2 ^ 32) }
    ensures { (path.new ≡ set path.old size x) × (marks.new ≡ set marks.old x 1) }
{
    path[size] = x as u32;
    marks[x] = ON_PATH;
}

// The way leads to node y: the path has come back to it, then its place; or it joins the path, then the new size.
fn go_to(path: &mut [u32], marks: &mut [u32], size: usize, y: usize) -> ControlFlow<usize, usize>
    requires { (size ≤ length path.old) × (y < length marks.old) × (y < 2 ^ 32) × (eqb (at marks.old y) 1 ≡ false → size < length path.old) }
    ensures { turned_at size result path.new marks.new ≡ go_to y (walk_of size path.old marks.old) }
{
    if marks[y] == ON_PATH {
        return ControlFlow::Break(place_of(&path[0..size], y).unwrap_or(size));
    }
    enter(path, marks, size, y);
    ControlFlow::Continue(size + 1)
}

// A price below every cost with every row price: the number once more, beside specs/Rooms.antt. The promise of `lower` holds the two together.
const LOWEST: i64 = -1099511627776;

impl Accepted<'_> {
    // The node to which choice c of node x leads.
    fn over_to(&self, x: usize, c: usize) -> usize
        requires { c < length self.now.rows.now }
        ensures { result ≡ over_to self.now.m self.now.rows.now x c }
    {
        if x < self.m { self.rows[c] as usize } else { c }
    }

    // Where node x, which is done, is a row, the price of its column is lowered, so that its places are passed by.
    fn lower(&self, prices: &mut [i64], x: usize)
        requires { x < self.now.m → (x < length self.now.cols.now) × (at self.now.cols.now x < length prices.old) }
        ensures { prices.new ≡ lower_at self.now.m self.now.cols.now x prices.old }
    {
        if x < self.m {
            prices[self.cols[x] as usize] = LOWEST;
        }
    }

    // One turn. A path that is empty starts at the first node that is not done; else its last node goes over its choice, or is done where it has none.
    fn turn(
        &self,
        path: &mut [u32],
        marks: &mut [u32],
        choices: &mut [u32],
        prices: &mut [i64],
        size: usize,
    ) -> ControlFlow<usize, usize>
        requires { CanTurn self.now (walk_of size path.old marks.old) choices.old prices.old }
        ensures { TurnedTo self.now (walk_of size path.old marks.old) result path.new marks.new choices.new prices.new }
    {
        if size == 0 {
            let x = first_open(marks).unwrap_or(marks.len());
            enter(path, marks, 0, x);
            return ControlFlow::Continue(1);
        }
        let x = path[size - 1] as usize;
        let Some(c) = self.choose(marks, prices, x, choices[x] as usize) else {
            choices[x] = self.n as u32;
            self.lower(prices, x);
            marks[x] = DONE;
            return ControlFlow::Continue(size - 1);
        };
        choices[x] = c as u32;
        go_to(path, marks, size, self.over_to(x, c))
    }

    // The whole walk: twice as many turns as nodes. Where the path comes back to itself before, the place to which it does, and its size.
    pub fn walk(
        &self,
        path: &mut [u32],
        marks: &mut [u32],
        choices: &mut [u32],
        prices: &mut [i64],
    ) -> Option<(usize, usize)>
        requires { CanWalk self.now path.old marks.old choices.old prices.old }
        ensures { WalkedTo self.now result path.new marks.new choices.new }
    {
        let mut size = 0;
        for _turn in 0..2 * marks.len() {
            match self.turn(path, marks, choices, prices, size) {
                ControlFlow::Continue(next) => size = next,
                ControlFlow::Break(from) => return Some((from, size)),
            }
        }
        None
    }
}
