// Tests 8, 9 and 10 of a night of m rows and n columns: its costs in row order, and for each row a number whose bits are the columns barred to it. A row
// past the end of the bars has none: the slice without an entry bars nothing.
ghost use Rattle.std.specs.Prelude.{◌≡◌, not, ◌&&◌, [], ◌*◌, ◌≤◌, ◌<◌, ◌+ℤ◌, ◌-ℤ◌, length};
ghost use Rattle.ints.specs.Parts.{Within};
ghost use Rattle.lists.specs.Runs.{Finds};
ghost use Rattle.lists.specs.Counts.{some, bit_of};
ghost use Rattle.assignment.specs.Pairings.{signed_at};
ghost use Rattle.matrix.specs.Asked.{ColumnsListed};
ghost use Rattle.matrix.specs.Limits.{side, K};
ghost use Rattle.bars.specs.Barred.{night_of};
ghost use Rattle.checker.specs.Tests.{slack, is_over, over, over_in, but, under_costs_but, loose, tight_on_but};
ghost use Rattle.checker.specs.Check.{price_tests};
ghost use Rattle.checker.specs.Asked.{BitsFit, Priced};
ghost use Rattle.checker.specs.Proven.{Prices};

use bars::bits::has;
use bars::bits_at;
use matrix::rows::{reduced_cost, row_of};
use matrix::{Reason, Refusal, tests};

// The test of one place: its slack, the cost minus both prices.
#[tactic(auto, using(crate::proofs::Places::sum_fits, crate::proofs::Places::slack_fits))]
fn slack(cost: i32, u: i64, v: i64) -> i64
    requires { Within (10 * K) u × Within (10 * K) v }
    ensures { result ≡ cost -ℤ (u +ℤ v) }
{
    let both = u + v;
    i64::from(cost) - both
}

// Whether the prices of one place are over its cost: the cost minus the row's price is below the column's.
#[tactic(auto, using(crate::proofs::Places::price_near), unfolding(crate::specs::Tests::is_over))]
fn is_over(cost: i32, u: i64, v: i64) -> bool
    requires { Within (10 * K) u × Within (10 * K) v }
    ensures { result ≡ is_over cost u v }
{
    reduced_cost(cost, u) < v
}

// Refusal 9 in one row without bars: whether it has a column at which the prices are over the cost. The pass ends at no column, so that several are
// compared at once.
fn some_over(row: &[i32], u: i64, vs: &[i64]) -> bool
    requires { Within (10 * K) u × Prices (length row.now) vs.now }
    ensures { result ≡ some (length row.now) (λ j. is_over (signed_at row.now j) u (signed_at vs.now j)) }
{
    let mut found = false;
    for j in 0..row.len() {
        found |= is_over(row[j], u, vs[j]);
    }
    found
}

// Refusal 9 in one row without bars: the first column at which the prices are over the cost, which is looked for only where one pass tells of one.
fn first_column_over(row: &[i32], u: i64, vs: &[i64]) -> Option<usize>
    requires { Within (10 * K) u × Prices (length row.now) vs.now }
    ensures { Finds (length row.now) (λ j. is_over (signed_at row.now j) u (signed_at vs.now j)) result }
{
    if !some_over(row, u, vs) {
        return None;
    }
    (0..row.len()).find(|&j| is_over(row[j], u, vs[j]))
}

// Refusal 9 in one row with bars: the first allowed column at which the prices are over the cost.
fn first_allowed_over(row: &[i32], u: i64, vs: &[i64], bits: u64) -> Option<usize>
    requires { (length row.now ≤ 64) × Within (10 * K) u × Prices (length row.now) vs.now }
    ensures { Finds (length row.now) (λ j. not (bit_of bits j) && is_over (signed_at row.now j) u (signed_at vs.now j)) result }
{
    (0..row.len()).find(|&j| !has(bits, j) && is_over(row[j], u, vs[j]))
}

// A night's costs and bars, with a price for each row and each column, all of them tested: what tests 9 and 10 read.
#[derive(Clone, Copy)]
struct PricedNight<'a> {
    m: usize,
    n: usize,
    costs: &'a [i32],
    us: &'a [i64],
    vs: &'a [i64],
    bars: &'a [u64],
    ghost priced: { Priced m n costs.now us.now vs.now },
    ghost fit: { BitsFit n bars.now },
}

impl PricedNight<'_> {
    ghost use Rattle.checker.specs.PricedNights.{night};

    // The slack of place (i, j).
    fn slack_at(&self, i: usize, j: usize) -> i64
        requires { (i < self.now.m) × (j < self.now.n) }
        ensures { result ≡ slack (night self.now) self.now.us.now self.now.vs.now i j }
    {
        slack(self.costs[i * self.n + j], self.us[i], self.vs[j])
    }

    // Refusal 9 in row i: the first allowed column at which the prices are over the cost. Whether the row has bars is asked once.
    fn column_over(&self, i: usize) -> Option<usize>
        requires { i < self.now.m }
        ensures { Finds self.now.n (over (night self.now) self.now.us.now self.now.vs.now i) result }
    {
        let row = row_of(self.costs, self.n, i);
        let bits = bits_at(self.bars, i);
        if bits == 0 {
            return first_column_over(row, self.us[i], self.vs);
        }
        first_allowed_over(row, self.us[i], self.vs, bits)
    }

    // Refusal 9 in row i: whether it has an allowed place at which the prices are over the cost.
    #[tactic(auto, using(crate::proofs::Found::found_some))]
    fn is_over_in(&self, i: usize) -> bool
        requires { i < self.now.m }
        ensures { result ≡ over_in (night self.now) self.now.us.now self.now.vs.now i }
    {
        self.column_over(i).is_some()
    }

    // Refusal 9: the first row but `skip` that has an allowed place at which the prices are over the cost.
    fn row_over(&self, skip: usize) -> Option<usize>
        ensures { Finds self.now.m (but skip (over_in (night self.now) self.now.us.now self.now.vs.now)) result }
    {
        (0..self.m).find(|&i| i != skip && self.is_over_in(i))
    }

    // Refusal 10 in row i: whether its paired place has prices that are not the cost.
    #[tactic(auto, using(crate::proofs::Places::differ_bits))]
    fn is_loose(&self, cols: &[u32], i: usize) -> bool
        requires { (i < self.now.m) × ColumnsListed self.now.m self.now.n cols.now }
        ensures { result ≡ loose (night self.now) cols.now self.now.us.now self.now.vs.now i }
    {
        self.slack_at(i, cols[i] as usize) != 0
    }

    // Refusal 10: the first row but `skip` whose paired place has prices that are not the cost.
    fn row_loose(&self, skip: usize, cols: &[u32]) -> Option<usize>
        requires { ColumnsListed self.now.m self.now.n cols.now }
        ensures { Finds self.now.m (but skip (loose (night self.now) cols.now self.now.us.now self.now.vs.now)) result }
    {
        (0..self.m).find(|&i| i != skip && self.is_loose(cols, i))
    }
}

// Test 9, leaving out row `skip`. The checker leaves none out: its `skip` is m, which is no row.
pub fn under_costs(
    m: usize,
    n: usize,
    skip: usize,
    costs: &[i32],
    us: &[i64],
    vs: &[i64],
    bars: &[u64],
) -> Result<(), Refusal>
    requires { Priced m n costs.now us.now vs.now × BitsFit n bars.now }
    ensures { result ≡ under_costs_but skip (night_of m n costs.now bars.now) us.now vs.now }
{
    let night = PricedNight {
        m,
        n,
        costs,
        us,
        vs,
        bars,
    };
    if let Some(i) = night.row_over(skip) {
        if let Some(j) = night.column_over(i) {
            return Err(Refusal {
                reason: Reason::PricesOverCost,
                place: i * n + j,
                slack: night.slack_at(i, j),
            });
        }
    }
    Ok(())
}

// Test 10, leaving out row `skip`, as test 9 does. It reads no bars: the places are those of the pairing.
pub fn tight_on(
    m: usize,
    n: usize,
    skip: usize,
    costs: &[i32],
    cols: &[u32],
    us: &[i64],
    vs: &[i64],
) -> Result<(), Refusal>
    requires { Priced m n costs.now us.now vs.now × ColumnsListed m n cols.now }
    ensures { result ≡ tight_on_but skip (night_of m n costs.now []) cols.now us.now vs.now }
{
    let night = PricedNight {
        m,
        n,
        costs,
        us,
        vs,
        bars: &[],
    };
    match night.row_loose(skip, cols) {
        Some(i) => Err(Refusal {
            reason: Reason::PricesNotCost,
            place: i,
            slack: night.slack_at(i, cols[i] as usize),
        }),
        None => Ok(()),
    }
}

// Tests 8, 9, 10: no two prices are added before every price has been tested.
#[tactic(auto, using(crate::proofs::Tests::prices_passed, crate::proofs::But::under_all, crate::proofs::But::tight_all))]
pub fn priced(
    m: usize,
    n: usize,
    costs: &[i32],
    cols: &[u32],
    us: &[i64],
    vs: &[i64],
    bars: &[u64],
) -> Result<(), Refusal>
    requires { (m ≤ side) × (n ≤ side) × (length costs.now ≡ m * n) × ColumnsListed m n cols.now × (m ≤ length us.now) × (n ≤ length vs.now) × BitsFit n bars.now }
    ensures { result ≡ price_tests (night_of m n costs.now bars.now) cols.now us.now vs.now }
{
    tests::prices_within(m, n, us, vs)?;
    under_costs(m, n, m, costs, us, vs, bars)?;
    tight_on(m, n, m, costs, cols, us, vs)
}
