// Rule 3, column reduction and transfer.
ghost use Rattle.std.specs.Prelude.{◌≡◌, suc, ◌+◌, ◌<◌, ◌≤◌, ◌-ℤ◌, length};
ghost use Rattle.lists.specs.Runs.{downward};
ghost use Rattle.lists.specs.Permutations.{at, table};
ghost use Rattle.lists.specs.Parts.{part, replaced};
ghost use Rattle.assignment.specs.Pairings.{signed_at, square};
ghost use Rattle.rules.specs.Lowest.{least, least_but};
ghost use Rattle.rules.specs.Columns.{Claims, minimum, claim, claims, less_least, lower_column, transfer, column_reduction};
ghost use Rattle.ints.specs.Parts.{Within};
ghost use Rattle.matrix.specs.Limits.{side, near};
ghost use Rattle.reduction.specs.Ranges.{Near, Square};
ghost use Rattle.reduction.specs.Reduced.{width, reduced_at};
ghost use Rattle.reduction.specs.Columns.{low_at, claims_of, Claimable, NextLeast, transfer_of, Transferable, transferring, stage_at, Reducible};

use crate::reduced::Reduced;

// A row's costs, each as a price.
fn widen(row: &[i32], v: &mut [i64])
    requires { length v.old ≡ length row.now }
    ensures { v.new ≡ row.now }
{
    for j in 0..row.len() {
        v[j] = i64::from(row[j]);
    }
}

// Row i beside the minima of the rows before it, in every column.
fn lower_minima(i: usize, row: &[i32], rows: &mut [u32], v: &mut [i64])
    requires { (i < side) × (length rows.old ≡ length row.now) × (length v.old ≡ length row.now) }
    ensures { (rows.new ≡ table (length row.now) (λ j. (low_at i row.now v.old rows.old j).place)) × (v.new ≡ table (length row.now) (λ j. (low_at i row.now v.old rows.old j).value)) }
{
    for j in 0..row.len() {
        let cost = i64::from(row[j]);
        if cost < v[j] {
            v[j] = cost;
            rows[j] = i as u32;
        }
    }
}

// Each column's minimum and its row, ties to the lowest row. The costs are read row by row.
fn minima(n: usize, costs: &[i32], rows: &mut [u32], v: &mut [i64])
    requires { Square n costs.now × (length rows.old ≡ n) × (length v.old ≡ n) × (1 ≤ n) }
    ensures { (rows.new ≡ table n (λ j. (minimum n (square n costs.now).cost j).place)) × (v.new ≡ table n (λ j. (minimum n (square n costs.now).cost j).value)) }
{
    rows.fill(0);
    widen(matrix::rows::row(costs, n, 0), v);
    for i in 1..n {
        lower_minima(i, matrix::rows::row(costs, n, i), rows, v);
    }
}

// The free mark, which is no row.
const FREE: u32 = u32::MAX;

// What a row's mark says. Numbers and no enum, since the marks lie in the room of numbers that the caller lends.
const UNCLAIMED: u32 = 0;

const UNIQUE: u32 = 1;

const NOT_UNIQUE: u32 = 2;

// Column j claims its row; a loser is free and marks that row not unique.
fn claim(n: usize, j: usize, cols: &mut [u32], rows: &mut [u32], marks: &mut [u32])
    requires { (n ≤ side) × (j < n) × Claimable n (suc j) (claims_of cols.old rows.old marks.old) }
    ensures { claims_of cols.new rows.new marks.new ≡ claim j (claims_of cols.old rows.old marks.old) }
{
    let i = rows[j] as usize;
    if marks[i] == UNCLAIMED {
        cols[i] = j as u32;
        marks[i] = UNIQUE;
    } else {
        rows[j] = FREE;
        marks[i] = NOT_UNIQUE;
    }
}

// Columns claim their row from last to first.
fn claim_all(n: usize, cols: &mut [u32], rows: &mut [u32], marks: &mut [u32])
    requires { (n ≤ side) × Claimable n n (claims_of cols.old rows.old marks.old) }
    ensures { claims_of cols.new rows.new marks.new ≡ downward n claim (claims_of cols.old rows.old marks.old) }
{
    for j in (0..n).rev() {
        claim(n, j, cols, rows, marks);
    }
}

// A value beside the least so far.
fn least(found: Option<i64>, h: i64) -> Option<i64>
    ensures { result ≡ least found h }
{
    Some(found.map_or(h, |a| a.min(h)))
}

// The first column from `from` on whose reduced cost may change the least so far.
fn next_least(row: Reduced, from: usize, found: Option<i64>) -> Option<usize>
    ensures { NextLeast (reduced_at row.entry) found from (width row.entry) result }
{
    match found {
        Some(a) => row.next_below(from, a),
        None if from < row.width() => Some(from),
        None => None,
    }
}

// The least reduced cost of a row over the columns but j.
fn least_other(row: Reduced, j: usize) -> Option<i64>
    ensures { result ≡ least_but (width row.entry) (reduced_at row.entry) j }
{
    let mut found = None;
    let mut next = next_least(row, 0, found);
    while let Some(k) = next {
        if k != j {
            found = least(found, row.at(k));
        }
        next = next_least(row, k + 1, found);
    }
    found
}

// A unique row i lowers the price of its column j.
fn lower_column(n: usize, costs: &[i32], i: usize, j: usize, v: &mut [i64])
    requires { Square n costs.now × (i < n) × (j < n) × (length v.old ≡ n) × Near n v.old }
    ensures { v.new ≡ lower_column n (square n costs.now).cost i j v.old }
{
    let row = Reduced {
        costs: matrix::rows::row(costs, n, i),
        prices: v,
    };
    if let Some(h) = least_other(row, j) {
        v[j] -= h;
    }
}

// Rows upward: an unclaimed row joins the free list, a unique one lowers its column's price. How many rows are free at the end.
fn transfers(
    n: usize,
    costs: &[i32],
    cols: &[u32],
    marks: &[u32],
    v: &mut [i64],
    frees: &mut [u32],
) -> usize
    requires { Transferable n costs.now cols.now marks.now v.old frees.old }
    ensures { transfer_of v.new frees.new result ≡ transferring n costs.now cols.now marks.now v.old frees.old n }
{
    let mut count = 0;
    for i in 0..n {
        match marks[i] {
            UNCLAIMED => {
                frees[count] = i as u32;
                count += 1;
            }
            UNIQUE => lower_column(n, costs, i, cols[i] as usize, v),
            _ => {}
        }
    }
    count
}

// Rule 3: column reduction and transfer. The answer is how many rows are free; they stand at 0 in the room, and the marks of the rows at 3n.
pub fn ccrrt_dense(
    n: usize,
    costs: &[i32],
    cols: &mut [u32],
    rows: &mut [u32],
    v: &mut [i64],
    room: &mut [u32],
) -> usize
    requires { Reducible n costs.now cols.old rows.old v.old room.old }
    ensures { (stage_at cols.new rows.new v.new (part 0 n room.new) result ≡ column_reduction n (square n costs.now).cost) × (room.new ≡ replaced 0 (column_reduction n (square n costs.now).cost).frees (replaced (n + n + n) (claims n (square n costs.now).cost).marks room.old)) }
{
    let (front, marks) = room.split_at_mut(3 * n);
    let frees = &mut front[..n];
    minima(n, costs, rows, v);
    cols.fill(0);
    marks.fill(UNCLAIMED);
    claim_all(n, cols, rows, marks);
    frees.fill(0);
    transfers(n, costs, cols, marks, v, frees)
}
