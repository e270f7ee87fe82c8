// What the walk begins with: how many nodes there are, the highest price of a used column, and the node behind each column.
ghost use Rattle.std.specs.Prelude.{◌≡◌, cond, ℕ, suc, ◌≤◌, ◌<◌, ltb, eqb, length};
ghost use Rattle.lists.specs.Runs.{upward, first};
ghost use Rattle.lists.specs.Permutations.{at, table, Injective};
ghost use Rattle.assignment.specs.Pairings.{signed_at};
ghost use Rattle.matrix.specs.Limits.{side};
ghost use Rattle.swaps.specs.Second.{higher};

// The rows, and one node more where there are spare columns.
pub fn count_nodes(m: usize, n: usize) -> usize
    ensures { result ≡ cond (ltb m n) (suc m) m }
{
    if m < n { m + 1 } else { m }
}

// The highest price of a used column.
pub fn dearest(m: usize, cols: &[u32], vs: &[i64]) -> i64
    requires { (0 < m) × (m ≤ length cols.now) × ((i : ℕ) → i < m → at cols.now i < length vs.now) }
    ensures { result ≡ upward 0 m (higher vs.now cols.now) (signed_at vs.now (at cols.now 0)) }
{
    let mut top = vs[cols[0] as usize];
    for i in 0..m {
        top = top.max(vs[cols[i] as usize]);
    }
    top
}

// The row behind each column: the number of rows where it is spare.
pub fn list_rows(m: usize, cols: &[u32], rows: &mut [u32])
    requires { (m ≤ side) × (m ≤ length cols.now) × Injective m (length rows.old) (at cols.now) }
    ensures { rows.new ≡ table (length rows.old) (λ j. first m (λ i. eqb (at cols.now i) j)) }
{
    rows.fill(m as u32);
    for i in 0..m {
        rows[cols[i] as usize] = i as u32;
    }
}
