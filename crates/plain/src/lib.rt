// The plain engine: every list of columns is tried, in dictionary order, and the first of the least total is kept.
// What is promised is said in specs/. Nothing here knows the solver.
#![tactic(auto)]

ghost use Rattle.std.specs.Prelude.{◌≡◌, cond, IfOk, ◌||◌, ℕ, suc, ◌*◌, ◌^◌, ◌<◌, ◌≤◌, ltb, length};
ghost use Rattle.lists.specs.Runs.{Finds};
ghost use Rattle.lists.specs.Permutations.{at};
ghost use Rattle.lists.specs.Counts.{bit_of};
ghost use Rattle.bars.specs.Barred.{night_of};
ghost use Rattle.matrix.specs.Asked.{ColumnsListed};
ghost use Rattle.plain.specs.Engine.{digits, taken, cost_of, less, chosen, written, plain_tests, plain};

use bars::is_barred;
use matrix::{Refusal, tests, total_of};

// Whether a row before row i has its column.
fn taken(cols: &[u32], i: usize) -> bool
    requires { i < length cols.now }
    ensures { result ≡ taken cols.now i }
{
    (0..i).any(|h| cols[h] == cols[i])
}

// The first row that is at a barred place or has the column of a row before it.
fn first_wrong(bars: &[u64], cols: &[u32]) -> Option<usize>
    requires { ColumnsListed (length cols.now) 64 cols.now }
    ensures { Finds (length cols.now) (λ i. bit_of (at bars.now i) (at cols.now i) || taken cols.now i) result }
{
    (0..cols.len()).find(|&i| is_barred(bars, i, cols[i] as usize) || taken(cols, i))
}

// What a list costs: none where it is no pairing.
fn cost(n: usize, costs: &[i32], bars: &[u64], cols: &[u32]) -> Option<i64>
    requires { (length cols.now ≤ n) × (n ≤ 8) × (length costs.now ≡ length cols.now * n) × ColumnsListed (length cols.now) n cols.now }
    ensures { result ≡ cost_of (night_of (length cols.now) n costs.now bars.now) cols.now }
{
    match first_wrong(bars, cols) {
        Some(_) => None,
        None => Some(total_of(cols.len(), n, costs, cols)),
    }
}

// Whether one costs less than the other: any total is less than none. By hand, since the order of `Option` has none first.
fn less(cost: Option<i64>, found: Option<i64>) -> bool
    ensures { result ≡ less cost found }
{
    cost.is_some_and(|total| found.is_none_or(|least| total < least))
}

// A list that costs less than what is found takes its place.
fn keep(cost: Option<i64>, list: &[u32], found: Option<i64>, cols: &mut [u32]) -> Option<i64>
    requires { length cols.old ≡ length list.now }
    ensures { (result ≡ cond (less cost found) cost found) × (cols.new ≡ cond (less cost found) list.now cols.old) }
{
    if !less(cost, found) {
        return found;
    }
    lists::copy(list, cols);
    cost
}

// The next list in dictionary order: list k becomes list k + 1. After the last come zeros, and the answer is false.
fn next(n: usize, list: &mut [u32]) -> bool
    requires { (n ≤ 8) × ((i : ℕ) → i < length list.old → at list.old i < n) }
    ensures { (k : ℕ) → k < n ^ length list.old → list.old ≡ digits n (length list.old) k → (list.new ≡ digits n (length list.old) (suc k)) × (result ≡ ltb (suc k) (n ^ length list.old)) }
{
    for i in (0..list.len()).rev() {
        let j = list[i] as usize + 1;
        if j < n {
            list[i] = j as u32;
            return true;
        }
        list[i] = 0;
    }
    false
}

// The engine, for as many rows as `cols` has entries and for n columns: it counts in `list`, and leaves the first least pairing in `cols`.
// Inlined, so that the entry's, without bars, tests none.
#[inline(always)]
pub fn engine(
    n: usize,
    costs: &[i32],
    bars: &[u64],
    list: &mut [u32],
    cols: &mut [u32],
) -> Option<i64>
    requires { (length cols.old ≤ n) × (n ≤ 8) × (length costs.now ≡ length cols.old * n) × (length list.old ≡ length cols.old) }
    ensures found { result ≡ cost_of (night_of (length cols.old) n costs.now bars.now) (chosen (night_of (length cols.old) n costs.now bars.now)) }
    ensures columns { cols.new ≡ written result (chosen (night_of (length cols.old) n costs.now bars.now)) cols.old }
{
    list.fill(0);
    let mut found = None;
    loop {
        found = keep(cost(n, costs, bars, list), list, found, cols);
        if !next(n, list) {
            return found;
        }
    }
}

// The entry's tests: 1, 2, 3 and 5.
#[tactic(auto, using(crate::proofs::Entry::entry_tests), unfolding(crate::specs::Engine::plain_tests))]
fn tested(n: usize, costs: &[i32], cols: &[u32]) -> Result<(), Refusal>
    ensures verdict { result ≡ plain_tests n costs.now cols.now }
    ensures passed { IfOk result (λ u. (n ≤ 8) × (length costs.now ≡ n * n) × (n ≤ length cols.now)) }
{
    tests::side_within(8, n)?;
    tests::costs_fill(n, n, costs)?;
    tests::list_long(1, n, cols.len())?;
    tests::costs_within(costs)
}

// The entry: the least total of a square night up to side 8, and in `cols` the first columns that reach it. Such a night has a pairing, so that
// there is always something found.
#[tactic(auto, using(crate::proofs::Entry::entry_answers))]
pub fn plain(n: usize, costs: &[i32], cols: &mut [u32]) -> Result<i64, Refusal>
    ensures { (result, cols.new) ≡ plain n costs.now cols.old }
{
    tested(n, costs, cols)?;
    let mut list = [0u32; 8];
    Ok(engine(n, costs, &[], &mut list[..n], &mut cols[..n]).unwrap_or(0))
}
