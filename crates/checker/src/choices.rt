// The tests of an oblong night's own: no more rows than columns, no column twice, and no spare column's price below a used one's.
ghost use Rattle.std.specs.Prelude.{◌≡◌, ◌≤◌, ◌<◌, length};
ghost use Rattle.std.specs.Int.Signed.{lt_z};
ghost use Rattle.lists.specs.Runs.{Finds};
ghost use Rattle.lists.specs.Permutations.{at};
ghost use Rattle.lists.specs.Counts.{some};
ghost use Rattle.assignment.specs.Pairings.{signed_at};
ghost use Rattle.matrix.specs.Asked.{ColumnsListed};
ghost use Rattle.checker.specs.Tests.{rows_fit, used_by, columns_once, spare_below, spares_not_below};

use matrix::{Reason, Refusal, tests};

// Test 23.
pub fn rows_fit(m: usize, n: usize) -> Result<(), Refusal>
    ensures { result ≡ rows_fit m n }
{
    tests::fails_if(n < m, Reason::RowsOver, m)
}

// Whether one of the first `count` rows has column j.
pub fn used(count: usize, cols: &[u32], j: usize) -> bool
    requires { count ≤ length cols.now }
    ensures { result ≡ used_by cols.now count j }
{
    (0..count).any(|i| cols[i] as usize == j)
}

// Refusal 7: the first row whose column an earlier row has.
fn first_row_again(m: usize, cols: &[u32]) -> Option<usize>
    requires { m ≤ length cols.now }
    ensures { Finds m (λ i. used_by cols.now i (at cols.now i)) result }
{
    (0..m).find(|&i| used(i, cols, cols[i] as usize))
}

// Test 7.
#[tactic(auto, using(matrix::proofs::Verdicts::found_fails))]
pub fn columns_once(m: usize, cols: &[u32]) -> Result<(), Refusal>
    requires { m ≤ length cols.now }
    ensures { result ≡ columns_once m cols.now }
{
    tests::fails_at(first_row_again(m, cols), Reason::RowNotNamed)
}

// Whether a row's column has a price above v.
fn some_above(m: usize, cols: &[u32], vs: &[i64], v: i64) -> bool
    requires { ColumnsListed m (length vs.now) cols.now }
    ensures { result ≡ some m (λ i. lt_z v (signed_at vs.now (at cols.now i))) }
{
    (0..m).any(|i| v < vs[cols[i] as usize])
}

// Refusal 27 of column j: whether it is spare and its price below a used one's.
fn spare_below(m: usize, cols: &[u32], vs: &[i64], j: usize) -> bool
    requires { ColumnsListed m (length vs.now) cols.now × (j < length vs.now) }
    ensures { result ≡ spare_below m cols.now vs.now j }
{
    !used(m, cols, j) && some_above(m, cols, vs, vs[j])
}

// Refusal 27: the first such column.
fn first_spare_below(m: usize, n: usize, cols: &[u32], vs: &[i64]) -> Option<usize>
    requires { ColumnsListed m (length vs.now) cols.now × (n ≤ length vs.now) }
    ensures { Finds n (spare_below m cols.now vs.now) result }
{
    (0..n).find(|&j| spare_below(m, cols, vs, j))
}

// Test 27.
#[tactic(auto, using(matrix::proofs::Verdicts::found_fails))]
pub fn spares_not_below(m: usize, n: usize, cols: &[u32], vs: &[i64]) -> Result<(), Refusal>
    requires { ColumnsListed m (length vs.now) cols.now × (n ≤ length vs.now) }
    ensures { result ≡ spares_not_below m n cols.now vs.now }
{
    tests::fails_at(first_spare_below(m, n, cols, vs), Reason::SpareBelow)
}
