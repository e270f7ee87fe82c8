// The repair of a paired night after one row's costs changed: the tests of its input, one search of the solver's own, and the entry. What is promised
// is said in specs/.
#![tactic(auto)]

ghost use Rattle.std.specs.Prelude.{◌≡◌, ◌*◌, ◌≤◌, pos, length, OnOk};
ghost use Rattle.assignment.specs.Pairings.{square};
ghost use Rattle.matrix.specs.Limits.{side, K};
ghost use Rattle.augmentation.specs.Augmentation.{pairs_of, state_of};
ghost use Rattle.lapjv.specs.Solve.{lent_of};
ghost use Rattle.repair.specs.Tests.{row_inside, prices_near, repair_tests};
ghost use Rattle.repair.specs.Repair.{mended, outcome_of, repair};
ghost use Rattle.repair.specs.Repairable.{Repairable};
ghost use Rattle.repair.specs.Values.{told_of};
ghost use Rattle.repair.specs.Asked.{CanMend, RepairedBy};

use checker::prices::{tight_on, under_costs};
use matrix::{Reason, Refusal, tests};

// Test 6 of the row number.
fn row_inside(n: usize, row: usize) -> Result<(), Refusal>
    ensures { result ≡ row_inside n row }
{
    tests::fails_if(n <= row, Reason::ColumnOutside, n)
}

// 7K.
#[tactic(auto, using(matrix::proofs::SmallLimits::K_small))]
fn near_bound() -> i64
    ensures { result ≡ pos (7 * K) }
{
    7 * matrix::limits::bound()
}

// Test 24.
fn prices_near(n: usize, us: &[i64], vs: &[i64]) -> Result<(), Refusal>
    requires { (n ≤ side) × (n ≤ length us.now) × (n ≤ length vs.now) }
    ensures { result ≡ prices_near n us.now vs.now }
{
    tests::prices_in(Reason::PriceFar, near_bound(), n, n, us, vs)
}

// Tests 1 to 8, 24, 9 and 10.
#[tactic(auto, unfolding(crate::specs::Tests::repair_tests))]
fn tested(
    n: usize,
    costs: &[i32],
    row: usize,
    cols: &[u32],
    rows: &[u32],
    row_prices: &[i64],
    col_prices: &[i64],
    indices: &[u32],
    numbers: &[i64],
) -> Result<(), Refusal>
    ensures tests { result ≡ repair_tests n costs.now row (lent_of cols.now rows.now row_prices.now col_prices.now indices.now numbers.now) }
    ensures limits { OnOk result (Repairable n costs.now row (lent_of cols.now rows.now row_prices.now col_prices.now indices.now numbers.now)) }
{
    lapjv::tested(
        n, costs, cols, rows, row_prices, col_prices, indices, numbers,
    )?;
    row_inside(n, row)?;
    tests::columns_inside(n, n, cols)?;
    checker::rows_named(n, cols, rows)?;
    tests::prices_within(n, n, row_prices, col_prices)?;
    prices_near(n, row_prices, col_prices)?;
    under_costs(n, n, row, costs, row_prices, col_prices, &[])?;
    tight_on(n, n, row, costs, cols, row_prices, col_prices)
}

// The row of a free column: the number once more, beside rules/specs/Columns.antt. The promise of `mend` holds the two together.
const FREE: u32 = u32::MAX;

// The row gives up its column and gets one by one search. Answers how many columns were scanned.
#[tactic(auto, using(matrix::proofs::SmallLimits::side_small))]
fn mend(
    n: usize,
    costs: &[i32],
    row: usize,
    cols: &mut [u32],
    rows: &mut [u32],
    v: &mut [i64],
    room: &mut [u32],
    d: &mut [i64],
) -> usize
    requires { CanMend n costs.now row (pairs_of cols.old rows.old) v.old room.old d.old }
    ensures { state_of cols.new rows.new v.new result ≡ mended n (square n costs.now).cost (pairs_of cols.old rows.old) v.old row }
{
    let given = cols[row] as usize;
    rows[given] = FREE;
    room[0] = row as u32;
    augmentation::ca_dense(n, costs, 1, cols, rows, v, d, room)
}

// The whole repair on lists of n entries and a room of 4n. The row prices are made anew, and the rooms are cleared at the end.
fn pair_again(
    n: usize,
    costs: &[i32],
    row: usize,
    cols: &mut [u32],
    rows: &mut [u32],
    row_prices: &mut [i64],
    v: &mut [i64],
    room: &mut [u32],
    d: &mut [i64],
) -> i64
    requires { CanMend n costs.now row (pairs_of cols.old rows.old) v.old room.old d.old × (length row_prices.old ≡ n) }
    ensures { RepairedBy n costs.now row (pairs_of cols.old rows.old) v.old cols.new rows.new row_prices.new v.new room.new d.new result }
{
    mend(n, costs, row, cols, rows, v, room, d);
    lapjv::write_row_prices(n, costs, cols, v, row_prices);
    let total = matrix::total(n, costs, n, cols);
    room.fill(0);
    d.fill(0);
    total
}

// The repair. `costs` is the whole matrix with the new costs of `row`; the four lists are an accepted pairing and its prices, and the work room is the
// solver's.
#[tactic(auto, unfolding(crate::specs::Repair::repair, crate::specs::Repair::outcome))]
pub fn repair(
    n: usize,
    costs: &[i32],
    row: usize,
    cols: &mut [u32],
    rows: &mut [u32],
    row_prices: &mut [i64],
    col_prices: &mut [i64],
    indices: &mut [u32],
    numbers: &mut [i64],
) -> Result<i64, Refusal>
    ensures { told_of (outcome_of result (lent_of cols.new rows.new row_prices.new col_prices.new indices.new numbers.new)) ≡ told_of (repair n costs.now row (lent_of cols.old rows.old row_prices.old col_prices.old indices.old numbers.old)) }
{
    tested(
        n, costs, row, cols, rows, row_prices, col_prices, indices, numbers,
    )?;
    Ok(pair_again(
        n,
        costs,
        row,
        &mut cols[..n],
        &mut rows[..n],
        &mut row_prices[..n],
        &mut col_prices[..n],
        &mut indices[..4 * n],
        &mut numbers[..n],
    ))
}
