// Rules 2, 5 and 6: the block of minima, the search with its scan, and augmentation, under the crate's names.
#![tactic(auto, using(matrix::proofs::SmallLimits::side_small))]

ghost use Rattle.std.specs.Prelude.{◌≡◌, ◌*◌, ◌<◌, ◌≤◌, ◌-ℤ◌, length, leb};
ghost use Rattle.std.specs.Int.Signed.{le_z};
ghost use Rattle.ints.specs.Parts.{Within};
ghost use Rattle.lists.specs.Runs.{FindsFrom};
ghost use Rattle.lists.specs.Permutations.{at, table, Permutation};
ghost use Rattle.matrix.specs.Limits.{side, near};
ghost use Rattle.rules.specs.Block.{block};
ghost use Rattle.rules.specs.Search.{last_free, new_prices};
ghost use Rattle.rules.specs.Augmentation.{flips, flipped};
ghost use Rattle.augmentation.specs.Block.{distance_at};
ghost use Rattle.augmentation.specs.Scan.{Lent, ColumnsLowered, Scanned};
ghost use Rattle.augmentation.specs.Search.{CanStart, Started, CanScan, CanChange, ready_at, CanSearch, Searched, found_from};
ghost use Rattle.augmentation.specs.DirectHit.{Priced, reduced_in};
ghost use Rattle.augmentation.specs.Augmentation.{CanFlip, CanAugmentRow, RowAugmented, CanAugment, Augmented, pairs_of, open_at};

mod direct;

use matrix::rows::{reduced_cost, row};
use rules::{Cursor, Reached};
use std::ops::ControlFlow;

// A reduced cost, lowered by h.
fn lowered(cost: i32, price: i64, h: i64) -> i64
    requires { Within near price × Within (4 * near) h }
    ensures { result ≡ (cost -ℤ price) -ℤ h }
{
    reduced_cost(cost, price) - h
}

// The first place of the list, from `from` on, whose column is not above the minimum. Four places a turn, by `first_from`.
fn next_near(d: &[i64], list: &[u32], from: usize, minimum: i64) -> Option<usize>
    requires { Permutation (length d.now) list.now }
    ensures { FindsFrom from (length list.now) (λ k t. t ≡ le_z (distance_at d.now list.now k) minimum) result }
{
    lists::first_from(from, list.len(), |k| d[list[k] as usize] <= minimum)
}

// Rule 2: the block of minima of the column list from lo on; the places above the minimum are passed over. Answers where it ends.
fn find_dense(lo: usize, d: &[i64], list: &mut [u32]) -> usize
    requires { (lo < length d.now) × Permutation (length d.now) list.old }
    ensures { (result ≡ (block (length d.now) d.now lo list.old).hi) × (list.new ≡ (block (length d.now) d.now lo list.old).list) }
{
    let mut hi = lo + 1;
    let mut minimum = d[list[lo] as usize];
    let mut from = hi;
    while let Some(k) = next_near(d, list, from, minimum) {
        let h = d[list[k] as usize];
        if h < minimum {
            hi = lo;
            minimum = h;
        }
        list.swap(k, hi);
        hi += 1;
        from = k + 1;
    }
    hi
}

// Whether column j is free: its row is not the number of one.
fn is_free(rows: &[u32], j: usize) -> bool
    requires { j < length rows.now }
    ensures { result ≡ leb (length rows.now) (at rows.now j) }
{
    rows.len() <= rows[j] as usize
}

// Rule 5: the last free column of a fresh block.
fn last_free(lo: usize, hi: usize, list: &[u32], rows: &[u32]) -> Option<usize>
    requires { (lo ≤ hi) × (hi ≤ length rows.now) × Permutation (length rows.now) list.now }
    ensures { result ≡ last_free (length rows.now) (at rows.now) list.now lo hi }
{
    let place = (lo..hi).rev().find(|&k| is_free(rows, list[k] as usize));
    place.map(|k| list[k] as usize)
}

// The columns in their order.
fn number_columns(list: &mut [u32])
    requires { length list.old ≤ side }
    ensures { list.new ≡ table (length list.old) (λ j. j) }
{
    for j in 0..list.len() {
        list[j] = j as u32;
    }
}

// Each column as far as a row makes it: its reduced cost there.
fn first_distances(row: &[i32], v: &[i64], d: &mut [i64])
    requires { Priced row.now v.now × (length d.old ≡ length row.now) }
    ensures { d.new ≡ table (length row.now) (reduced_in row.now v.now) }
{
    for j in 0..row.len() {
        d[j] = reduced_cost(row[j], v[j]);
    }
}

// Row i sees the columns from place `from` on; h is how far its reduced cost at its own column is above the block's minimum. Distances
// change only when strictly lower. A column that comes to the minimum is swapped to the block's end, or ends the search if it is free.
// Not inlined: within `ca_dense` the loop, where a search spends its time, is short of registers.
#[inline(never)]
fn lower_columns(
    i: u32,
    row: &[i32],
    v: &[i64],
    rows: &[u32],
    h: i64,
    minimum: i64,
    from: usize,
    d: &mut [i64],
    list: &mut [u32],
    predecessors: &mut [u32],
) -> ControlFlow<usize, usize>
    requires { let n = length rows.now in Lent n v.now rows.now d.old list.old predecessors.old × (length row.now ≡ n) × (from ≤ n) × Within (4 * near) h }
    ensures { ColumnsLowered (length rows.now) i row.now v.now rows.now h minimum from d.old list.old predecessors.old result d.new list.new predecessors.new }
{
    let mut hi = from;
    for k in from..list.len() {
        let j = list[k] as usize;
        let x = lowered(row[j], v[j], h);
        if x < d[j] {
            d[j] = x;
            predecessors[j] = i;
            if x == minimum {
                if is_free(rows, j) {
                    return ControlFlow::Break(j);
                }
                list.swap(k, hi);
                hi += 1;
            }
        }
    }
    ControlFlow::Continue(hi)
}

// Rule 5, the scan of one column: the row of the column at the cursor's lo sees the columns from its hi on.
fn scan_dense(
    costs: &[i32],
    rows: &[u32],
    cursor: Cursor,
    v: &[i64],
    d: &mut [i64],
    list: &mut [u32],
    predecessors: &mut [u32],
) -> ControlFlow<usize, usize>
    requires { CanScan (length rows.now) costs.now rows.now cursor.lo cursor.hi v.now d.old list.old predecessors.old }
    ensures { Scanned (length rows.now) costs.now v.now rows.now cursor.lo cursor.hi d.old list.old predecessors.old result d.new list.new predecessors.new }
{
    let j = list[cursor.lo] as usize;
    let i = rows[j];
    let minimum = d[j];
    let costs_of_row = row(costs, rows.len(), i as usize);
    let h = lowered(costs_of_row[j], v[j], minimum);
    lower_columns(
        i,
        costs_of_row,
        v,
        rows,
        h,
        minimum,
        cursor.hi,
        d,
        list,
        predecessors,
    )
}

// Before the first block: the columns in their order, each as far as the start row makes it.
fn start_search(
    costs: &[i32],
    start: u32,
    v: &[i64],
    d: &mut [i64],
    list: &mut [u32],
    predecessors: &mut [u32],
)
    requires { CanStart (length v.now) costs.now start v.now d.old list.old predecessors.old }
    ensures { Started (length v.now) costs.now start v.now d.new list.new predecessors.new }
{
    first_distances(row(costs, v.len(), start as usize), v, d);
    number_columns(list);
    predecessors.fill(start);
}

// Each ready column, those listed before lo, has its distance minus the last block's minimum added to its price.
fn change_prices(lo: usize, list: &[u32], d: &[i64], v: &mut [i64])
    requires { CanChange (length v.old) lo list.now d.now v.old }
    ensures { v.new ≡ new_prices (ready_at lo list.now d.now) v.old }
{
    let minimum = d[list[lo] as usize];
    for &ready in &list[..lo] {
        let j = ready as usize;
        v[j] += d[j] - minimum;
    }
}

// Rule 5, the search: from the free row `start` to a free column, and then the new prices. The scan has a cursor of its own; where it is left
// at a free column, lo and hi keep their values from before it.
// Kept three lists and no struct of them: of a field `&mut [T]` that is lent on as `&[T]`, a proof knows no element afterwards.
fn find_path_dense(
    costs: &[i32],
    rows: &[u32],
    start: u32,
    v: &mut [i64],
    d: &mut [i64],
    list: &mut [u32],
    predecessors: &mut [u32],
) -> Reached
    requires can { CanSearch (length rows.now) costs.now rows.now start v.old }
    requires room { let n = length rows.now in (length d.old ≡ n) × (length list.old ≡ n) × (length predecessors.old ≡ n) }
    ensures { Searched (found_from (length rows.now) costs.now rows.now start v.old) v.old result v.new d.new list.new predecessors.new }
{
    start_search(costs, start, v, d, list, predecessors);
    let mut cursor = Cursor { lo: 0, hi: 0 };
    let mut scanned = 0;
    let column = 'search: loop {
        let lo = cursor.hi;
        let hi = find_dense(lo, d, list);
        if let Some(j) = last_free(lo, hi, list, rows) {
            cursor = Cursor { lo, hi };
            break j;
        }
        let mut scan = Cursor { lo, hi };
        while scan.lo != scan.hi {
            let next = scan.lo + 1;
            scanned += 1;
            match scan_dense(costs, rows, scan, v, d, list, predecessors) {
                ControlFlow::Continue(end) => scan = Cursor { lo: next, hi: end },
                ControlFlow::Break(free) => {
                    cursor = Cursor { lo, hi };
                    break 'search free;
                }
            }
        }
        cursor = scan;
    };
    change_prices(cursor.lo, list, d, v);
    Reached { column, scanned }
}

// Rule 6: pairs flip back along the predecessors, from `column` to the row `start`.
fn flip_back(start: u32, column: usize, predecessors: &[u32], cols: &mut [u32], rows: &mut [u32])
    requires { CanFlip (length rows.old) start column predecessors.now cols.old rows.old }
    ensures { pairs_of cols.new rows.new ≡ flipped (flips (length rows.old) start predecessors.now (open_at column cols.old rows.old)) }
{
    let mut j = column;
    loop {
        let i = predecessors[j];
        let old = cols[i as usize] as usize;
        cols[i as usize] = j as u32;
        rows[j] = i;
        if i == start {
            break;
        }
        j = old;
    }
}

// The row `start` gets its column, by a direct hit or by a search. Answers how many columns were scanned.
fn augment_row(
    costs: &[i32],
    start: u32,
    cols: &mut [u32],
    rows: &mut [u32],
    v: &mut [i64],
    d: &mut [i64],
    list: &mut [u32],
    predecessors: &mut [u32],
) -> usize
    requires { CanAugmentRow (length rows.old) costs.now start cols.old rows.old v.old d.old list.old predecessors.old }
    ensures { RowAugmented (length rows.old) costs.now start cols.old rows.old v.old cols.new rows.new v.new result }
{
    if let Some(j) = direct::hit(costs, rows, start, v) {
        cols[start as usize] = j as u32;
        rows[j] = start;
        return 0;
    }
    let reached = find_path_dense(costs, rows, start, v, d, list, predecessors);
    flip_back(start, reached.column, predecessors, cols, rows);
    reached.scanned
}

// Rule 6, augmentation: the first `left` rows of the room get their columns, in list order. Answers how many columns were scanned.
// Kept one room of 4n indices: callers, and C, lend it (no heap). Its parts are the free rows, the column list, the predecessors and the marks.
pub fn ca_dense(
    n: usize,
    costs: &[i32],
    left: usize,
    cols: &mut [u32],
    rows: &mut [u32],
    v: &mut [i64],
    d: &mut [i64],
    room: &mut [u32],
) -> usize
    requires { CanAugment n costs.now left cols.old rows.old v.old d.old room.old }
    ensures { Augmented n costs.now left cols.old rows.old v.old room.old cols.new rows.new v.new room.new result }
{
    let (frees, work) = room.split_at_mut(n);
    let (list, rest) = work.split_at_mut(n);
    let (predecessors, _) = rest.split_at_mut(n);
    let mut scanned = 0;
    for &start in &frees[..left] {
        scanned += augment_row(costs, start, cols, rows, v, d, list, predecessors);
    }
    scanned
}
