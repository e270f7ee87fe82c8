// A night's costs: the limits, the refusals, the tests that several entries share, a row as a part, and the crate's `cost`.
// What is promised is said in specs/.
#![tactic(auto)]

ghost use Rattle.std.specs.Prelude.{◌≡◌, ◌*◌, ◌^◌, ◌≤◌, ◌+ℤ◌, length};
ghost use Rattle.ints.specs.Parts.{Within};
ghost use Rattle.matrix.specs.Answers.{values_of};
ghost use Rattle.matrix.specs.Asked.{ColumnsListed, Listed};
ghost use Rattle.matrix.specs.Limits.{side};
ghost use Rattle.matrix.specs.Cost.{total_of, cost_tests, cost};

pub mod limits;
pub mod refusals;
pub mod rows;
pub mod tests;

pub use refusals::{Reason, Refusal};

// A total with one cost more.
fn plus(total: i64, cost: i32) -> i64
    requires { Within (2 ^ 62) total }
    ensures { result ≡ total +ℤ cost }
{
    total + i64::from(cost)
}

// What m rows of costs in n columns cost at their listed columns.
pub fn total_of(m: usize, n: usize, costs: &[i32], cols: &[u32]) -> i64
    requires { (m ≤ side) × (n ≤ side) × (m * n ≤ length costs.now) × ColumnsListed m n cols.now }
    ensures { result ≡ total_of n costs.now m cols.now }
{
    let mut total: i64 = 0;
    for i in 0..m {
        total = plus(total, costs[i * n + cols[i] as usize]);
    }
    total
}

// What the first `count` rows of a square cost at their listed columns.
pub fn total(n: usize, costs: &[i32], count: usize, cols: &[u32]) -> i64
    requires { Listed n costs.now count cols.now }
    ensures { result ≡ total_of n costs.now count cols.now }
{
    total_of(count, n, costs, cols)
}

// Tests 1, 2, 3, 5, 6 of `cost`.
#[tactic(auto, unfolding(crate::specs::Cost::cost_tests))]
fn cost_tested(n: usize, costs: &[i32], listed: &[u32]) -> Result<(), Refusal>
    ensures { result ≡ cost_tests n costs.now listed.now }
{
    tests::side_within(limits::side(), n)?;
    tests::costs_fill(n, n, costs)?;
    tests::list_short(n, listed.len())?;
    tests::costs_within(costs)?;
    tests::columns_inside(listed.len(), n, listed)
}

// The crate's `cost`.
#[tactic(auto, unfolding(crate::specs::Cost::cost, crate::specs::Answers::totalled))]
pub fn cost(n: usize, costs: &[i32], listed: &[u32]) -> Result<i64, Refusal>
    ensures { values_of result ≡ values_of (cost n costs.now listed.now) }
{
    cost_tested(n, costs, listed)?;
    Ok(total(n, costs, listed.len(), listed))
}
