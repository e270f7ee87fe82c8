// The solver: the tests of its input, the stages one after the other, and the entry. What is promised is said in specs/.
#![tactic(auto)]

ghost use Rattle.std.specs.Prelude.{◌≡◌, length, OnOk};
ghost use Rattle.assignment.specs.Pairings.{square};
ghost use Rattle.rules.specs.Run.{prices_of_rows};
ghost use Rattle.lapjv.specs.Asked.{CanPrice};
ghost use Rattle.lapjv.specs.Stages.{Pairable, Sized, ReducedBy, PairedBy};
ghost use Rattle.lapjv.specs.Solve.{lent_of, outcome_of, tested, solve};
ghost use Rattle.lapjv.specs.Values.{told_of};
ghost use Rattle.lapjv.specs.WithinLimits.{WithinLimits};

use matrix::{Refusal, tests};
use rules::Counts;

// What a paired night comes to.
#[derive(Clone, Copy, Debug, PartialEq, Eq)]
pub struct Sums {
    pub total: i64,
    pub counts: Counts,
}

// Side 0: total 0, counts 0.
const NOTHING: Sums = Sums {
    total: 0,
    counts: Counts {
        free_rows: 0,
        looks_one: 0,
        left_one: 0,
        looks_two: 0,
        rows_left: 0,
        columns_scanned: 0,
    },
};

// Tests 1, 2, 3, 4, 5.
#[tactic(auto, unfolding(crate::specs::Solve::tested))]
pub fn tested(
    n: usize,
    costs: &[i32],
    cols: &[u32],
    rows: &[u32],
    row_prices: &[i64],
    col_prices: &[i64],
    indices: &[u32],
    numbers: &[i64],
) -> Result<(), Refusal>
    ensures tests { result ≡ tested n costs.now (lent_of cols.now rows.now row_prices.now col_prices.now indices.now numbers.now) }
    ensures limits { OnOk result (WithinLimits n costs.now (lent_of cols.now rows.now row_prices.now col_prices.now indices.now numbers.now)) }
{
    tests::shaped(
        n,
        costs,
        cols.len(),
        rows.len(),
        row_prices.len(),
        col_prices.len(),
    )?;
    tests::rooms_long(n, indices.len(), numbers.len())?;
    tests::costs_within(costs)
}

// Row prices: cost minus v at the paired column.
pub fn write_row_prices(n: usize, costs: &[i32], cols: &[u32], v: &[i64], row_prices: &mut [i64])
    requires { CanPrice n costs.now cols.now v.now row_prices.old }
    ensures { row_prices.new ≡ prices_of_rows n (square n costs.now).cost cols.now v.now }
{
    for i in 0..n {
        let j = cols[i] as usize;
        row_prices[i] = matrix::rows::reduced_cost(costs[i * n + j], v[j]);
    }
}

// Rules 3 and 4: column reduction and at most two passes; a pass over no rows makes no look. The numbers are the passes' own. Answers the counts, of which
// the columns scanned are still none.
fn reduce(
    n: usize,
    costs: &[i32],
    cols: &mut [u32],
    rows: &mut [u32],
    v: &mut [i64],
    room: &mut [u32],
    numbers: &mut [i64],
) -> Counts
    requires { Pairable n costs.now × Sized n cols.old rows.old v.old room.old × (length numbers.old ≡ n) }
    ensures { ReducedBy n costs.now cols.new rows.new v.new room.new result }
{
    let free_rows = reduction::columns::ccrrt_dense(n, costs, cols, rows, v, room);
    let one = reduction::rows::carr_dense(n, costs, cols, rows, v, room, numbers, free_rows);
    let left = one.left;
    let two = reduction::rows::carr_dense(n, costs, cols, rows, v, room, numbers, left);
    Counts {
        free_rows,
        looks_one: one.looks,
        left_one: left,
        looks_two: two.looks,
        rows_left: two.left,
        columns_scanned: 0,
    }
}

// The whole run on lists of n entries and a room of 4n. The rooms are cleared at the end.
// The lists stay parameters, here and in `tested`: a struct of them would be filled in `solve` and taken apart at each call, and names all six twice more.
fn pair(
    n: usize,
    costs: &[i32],
    cols: &mut [u32],
    rows: &mut [u32],
    row_prices: &mut [i64],
    v: &mut [i64],
    room: &mut [u32],
    d: &mut [i64],
) -> Sums
    requires { Pairable n costs.now × Sized n cols.old rows.old v.old room.old × (length row_prices.old ≡ n) × (length d.old ≡ n) }
    ensures { PairedBy n costs.now cols.new rows.new row_prices.new v.new room.new d.new result }
{
    let reduced = reduce(n, costs, cols, rows, v, room, d);
    let columns_scanned = augmentation::ca_dense(
        n,
        costs,
        reduced.rows_left,
        cols,
        rows,
        v,
        d,
        room,
    );
    write_row_prices(n, costs, cols, v, row_prices);
    let total = matrix::total(n, costs, n, cols);
    room.fill(0);
    d.fill(0);
    Sums {
        total,
        counts: Counts {
            columns_scanned,
            ..reduced
        },
    }
}

// The solver. Outputs: the column of each row, the row of each column, row prices, column prices. Work room: 4n indices and n numbers.
#[tactic(auto, unfolding(crate::specs::Solve::solve, crate::specs::Solve::outcome))]
pub fn solve(
    n: usize,
    costs: &[i32],
    cols: &mut [u32],
    rows: &mut [u32],
    row_prices: &mut [i64],
    col_prices: &mut [i64],
    indices: &mut [u32],
    numbers: &mut [i64],
) -> Result<Sums, Refusal>
    ensures { told_of (outcome_of result (lent_of cols.new rows.new row_prices.new col_prices.new indices.new numbers.new)) ≡ told_of (solve n costs.now (lent_of cols.old rows.old row_prices.old col_prices.old indices.old numbers.old)) }
{
    tested(
        n, costs, cols, rows, row_prices, col_prices, indices, numbers,
    )?;
    if n == 0 {
        return Ok(NOTHING);
    }
    Ok(pair(
        n,
        costs,
        &mut cols[..n],
        &mut rows[..n],
        &mut row_prices[..n],
        &mut col_prices[..n],
        &mut indices[..4 * n],
        &mut numbers[..n],
    ))
}
