// The checker: it takes any costs, pairing and prices, and accepts only what the prices show to be least. See specs/ and proofs/.
#![tactic(auto)]

ghost use Rattle.std.specs.Prelude.{◌≡◌, not, [], ◌∷◌, ℕ, ◌≤◌, ◌<◌, eqb, length};
ghost use Rattle.lists.specs.Runs.{Finds};
ghost use Rattle.lists.specs.Permutations.{at};
ghost use Rattle.matrix.specs.Answers.{values_of};
ghost use Rattle.matrix.specs.Asked.{Shaped};
ghost use Rattle.checker.specs.Tests.{rows_named};
ghost use Rattle.checker.specs.Check.{proof_tests, checks, check, shaped_barred, paired_barred, checks_barred, check_barred, shaped_oblong, paired_oblong, checks_oblong, check_oblong};

use crate::prices::priced;
use matrix::limits::sheet_side;
use matrix::{Reason, Refusal, tests};

pub mod choices;
pub mod prices;

// Refusal 7: the first row whose column does not name it back.
fn first_row_not_named(n: usize, cols: &[u32], rows: &[u32]) -> Option<usize>
    requires { (n ≤ length cols.now) × (n ≤ length rows.now) × ((i : ℕ) → i < n → at cols.now i < n) }
    ensures { Finds n (λ i. not (eqb (at rows.now (at cols.now i)) i)) result }
{
    (0..n).find(|&i| rows[cols[i] as usize] as usize != i)
}

// Test 7.
#[tactic(auto, using(matrix::proofs::Verdicts::found_fails))]
pub fn rows_named(n: usize, cols: &[u32], rows: &[u32]) -> Result<(), Refusal>
    requires { (n ≤ length cols.now) × (n ≤ length rows.now) × ((i : ℕ) → i < n → at cols.now i < n) }
    ensures { result ≡ rows_named n cols.now rows.now }
{
    tests::fails_at(first_row_not_named(n, cols, rows), Reason::RowNotNamed)
}

// Tests 5 to 10.
#[tactic(auto, using(crate::proofs::Past::inside, crate::proofs::Past::listed, crate::proofs::Past::none_fit, crate::proofs::Past::plain_prices))]
pub fn proven(
    n: usize,
    costs: &[i32],
    cols: &[u32],
    rows: &[u32],
    us: &[i64],
    vs: &[i64],
) -> Result<(), Refusal>
    requires { Shaped n costs.now (length cols.now) (length rows.now) (length us.now) (length vs.now) }
    ensures { result ≡ proof_tests n costs.now cols.now rows.now us.now vs.now }
{
    tests::costs_within(costs)?;
    tests::columns_inside(n, n, cols)?;
    rows_named(n, cols, rows)?;
    priced(n, n, costs, cols, us, vs, &[])
}

// Tests 1, 2, 3, 5, 6, 7, 8, 9, 10.
#[tactic(auto, using(crate::proofs::Past::shape), unfolding(crate::specs::Check::checks))]
fn checked(
    n: usize,
    costs: &[i32],
    cols: &[u32],
    rows: &[u32],
    us: &[i64],
    vs: &[i64],
) -> Result<(), Refusal>
    ensures { result ≡ checks n costs.now cols.now rows.now us.now vs.now }
{
    tests::shaped(n, costs, cols.len(), rows.len(), us.len(), vs.len())?;
    proven(n, costs, cols, rows, us, vs)
}

// The checker, given row prices us and column prices vs: it accepts with the total, or refuses.
#[tactic(auto, using(crate::proofs::Past::checked_listed), unfolding(crate::specs::Check::check, matrix::specs::Answers::totalled))]
pub fn check(
    n: usize,
    costs: &[i32],
    cols: &[u32],
    rows: &[u32],
    us: &[i64],
    vs: &[i64],
) -> Result<i64, Refusal>
    ensures { values_of result ≡ values_of (check n costs.now cols.now rows.now us.now vs.now) }
{
    checked(n, costs, cols, rows, us, vs)?;
    Ok(matrix::total(n, costs, n, cols))
}

// Tests 1, 2, 3 of a night with bars, given the lengths of its five lists.
#[tactic(auto, using(crate::proofs::Past::sheet_small))]
pub fn shaped_barred(
    n: usize,
    costs: &[i32],
    cols: usize,
    rows: usize,
    us: usize,
    vs: usize,
    bars: usize,
) -> Result<(), Refusal>
    ensures { result ≡ shaped_barred n costs.now (cols ∷ rows ∷ us ∷ vs ∷ []) bars }
{
    tests::side_within(sheet_side(), n)?;
    tests::costs_fill(n, n, costs)?;
    tests::lists_long(n, cols, rows, us, vs)?;
    tests::list_long(5, n, bars)
}

// Tests 5, 22, 6, 7, 26.
#[tactic(auto, using(crate::proofs::Past::inside, crate::proofs::Past::listed))]
pub fn paired_barred(
    n: usize,
    costs: &[i32],
    cols: &[u32],
    rows: &[u32],
    bars: &[u64],
) -> Result<(), Refusal>
    requires { (n ≤ 64) × (n ≤ length cols.now) × (n ≤ length rows.now) × (n ≤ length bars.now) }
    ensures { result ≡ paired_barred n costs.now cols.now rows.now bars.now }
{
    bars::tests::costs_small(costs)?;
    bars::tests::bars_clear(n, bars)?;
    tests::columns_inside(n, n, cols)?;
    rows_named(n, cols, rows)?;
    bars::tests::unbarred(n, bars, cols)
}

// Tests 1, 2, 3, 5, 22, 6, 7, 26, 8, 9, 10.
#[tactic(auto, using(crate::proofs::Past::barred_shape, crate::proofs::Past::barred_listed, crate::proofs::Past::small_fit), unfolding(crate::specs::Check::checks_barred))]
fn checked_barred(
    n: usize,
    costs: &[i32],
    cols: &[u32],
    rows: &[u32],
    us: &[i64],
    vs: &[i64],
    bars: &[u64],
) -> Result<(), Refusal>
    ensures { result ≡ checks_barred n costs.now cols.now rows.now us.now vs.now bars.now }
{
    shaped_barred(
        n,
        costs,
        cols.len(),
        rows.len(),
        us.len(),
        vs.len(),
        bars.len(),
    )?;
    paired_barred(n, costs, cols, rows, bars)?;
    priced(n, n, costs, cols, us, vs, bars)
}

// The checker of a night with bars: for each row a number whose bits are the columns barred to it.
#[tactic(auto, using(crate::proofs::Past::barred_totalled), unfolding(crate::specs::Check::check_barred, matrix::specs::Answers::totalled))]
pub fn check_barred(
    n: usize,
    costs: &[i32],
    cols: &[u32],
    rows: &[u32],
    us: &[i64],
    vs: &[i64],
    bars: &[u64],
) -> Result<i64, Refusal>
    ensures { values_of result ≡ values_of (check_barred n costs.now cols.now rows.now us.now vs.now bars.now) }
{
    checked_barred(n, costs, cols, rows, us, vs, bars)?;
    Ok(matrix::total_of(n, n, costs, cols))
}

// Tests 1, 23, 2, 3 of an oblong night, given the lengths of its three lists.
#[tactic(auto, using(crate::proofs::Past::sheet_small, crate::proofs::Past::rows_small))]
pub fn shaped_oblong(
    m: usize,
    n: usize,
    costs: &[i32],
    cols: usize,
    us: usize,
    vs: usize,
) -> Result<(), Refusal>
    ensures { result ≡ shaped_oblong m n costs.now cols us vs }
{
    tests::side_within(sheet_side(), n)?;
    choices::rows_fit(m, n)?;
    tests::costs_fill(m, n, costs)?;
    tests::list_long(1, m, cols)?;
    tests::list_long(3, m, us)?;
    tests::list_long(4, n, vs)
}

// Tests 5, 6, 7.
pub fn paired_oblong(m: usize, n: usize, costs: &[i32], cols: &[u32]) -> Result<(), Refusal>
    requires { m ≤ length cols.now }
    ensures { result ≡ paired_oblong m n costs.now cols.now }
{
    tests::costs_within(costs)?;
    tests::columns_inside(m, n, cols)?;
    choices::columns_once(m, cols)
}

// Tests 1, 23, 2, 3, 5, 6, 7, 8, 9, 10, 27.
#[tactic(auto, using(crate::proofs::Past::oblong_shape, crate::proofs::Past::oblong_listed, crate::proofs::Past::none_fit, crate::proofs::Past::listed_more), unfolding(crate::specs::Check::checks_oblong))]
fn checked_oblong(
    m: usize,
    n: usize,
    costs: &[i32],
    cols: &[u32],
    us: &[i64],
    vs: &[i64],
) -> Result<(), Refusal>
    ensures { result ≡ checks_oblong m n costs.now cols.now us.now vs.now }
{
    shaped_oblong(m, n, costs, cols.len(), us.len(), vs.len())?;
    paired_oblong(m, n, costs, cols)?;
    priced(m, n, costs, cols, us, vs, &[])?;
    choices::spares_not_below(m, n, cols, vs)
}

// The checker of an oblong night: m rows, each with its own of n columns.
#[tactic(auto, using(crate::proofs::Past::oblong_totalled), unfolding(crate::specs::Check::check_oblong, matrix::specs::Answers::totalled))]
pub fn check_oblong(
    m: usize,
    n: usize,
    costs: &[i32],
    cols: &[u32],
    us: &[i64],
    vs: &[i64],
) -> Result<i64, Refusal>
    ensures { values_of result ≡ values_of (check_oblong m n costs.now cols.now us.now vs.now) }
{
    checked_oblong(m, n, costs, cols, us, vs)?;
    Ok(matrix::total_of(m, n, costs, cols))
}
