// A direct hit. The first block of a search has the columns at the start row's least reduced cost, in rising order, and the search ends at the
// last free column of a block. So where a free column stands at that cost, the search ends at the last such column: no column is scanned, no
// price changes, and the start row takes the column. The row alone shows it, before distances, list and predecessors are set up.
ghost use Rattle.std.specs.Prelude.{◌≡◌, ◌+◌, ◌≤◌, ◌<◌, length};
ghost use Rattle.lists.specs.Permutations.{at};
ghost use Rattle.rules.specs.Lowest.{lowest};
ghost use Rattle.augmentation.specs.Search.{CanSearch};
ghost use Rattle.augmentation.specs.DirectHit.{reduced_in, reduced_of, Priced, least_of_four, CanLook, free_at, LastOf};

use super::is_free;
use matrix::rows::{reduced_cost, row};

// The reduced cost of column j.
fn reduced_at(row: &[i32], v: &[i64], j: usize) -> i64
    requires { Priced row.now v.now × (j < length row.now) }
    ensures { result ≡ reduced_in row.now v.now j }
{
    reduced_cost(row[j], v[j])
}

// The least reduced cost of the four columns from j on.
fn least_of_four(row: &[i32], v: &[i64], j: usize) -> i64
    requires { Priced row.now v.now × (j + 4 ≤ length row.now) }
    ensures { result ≡ least_of_four (reduced_in row.now v.now) j }
{
    let first = reduced_at(row, v, j).min(reduced_at(row, v, j + 1));
    let second = reduced_at(row, v, j + 2).min(reduced_at(row, v, j + 3));
    first.min(second)
}

// The least reduced cost of a row that has a column.
// Kept four columns a turn: of `(0..n).map(..).min()`, as fast for x86-64-v2 and half as fast for plain x86-64, the proof did not close.
fn least_of(row: &[i32], v: &[i64]) -> i64
    requires { Priced row.now v.now × (1 ≤ length row.now) }
    ensures { result ≡ (lowest (length row.now) (reduced_in row.now v.now)).value }
{
    let mut least = reduced_at(row, v, 0);
    let mut j = 1;
    while 4 <= row.len() - j {
        least = least.min(least_of_four(row, v, j));
        j += 4;
    }
    for k in j..row.len() {
        least = least.min(reduced_at(row, v, k));
    }
    least
}

// Whether column j is free, and its reduced cost not above h.
fn is_free_at(row: &[i32], v: &[i64], rows: &[u32], h: i64, j: usize) -> bool
    requires { CanLook row.now v.now rows.now × (j < length row.now) }
    ensures { result ≡ free_at (length row.now) (reduced_in row.now v.now) (at rows.now) h j }
{
    is_free(rows, j) && reduced_at(row, v, j) <= h
}

// The last column that is free and whose reduced cost is not above h.
fn last_free_at(row: &[i32], v: &[i64], rows: &[u32], h: i64) -> Option<usize>
    requires { CanLook row.now v.now rows.now }
    ensures { LastOf (length row.now) (free_at (length row.now) (reduced_in row.now v.now) (at rows.now) h) result }
{
    let n = row.len();
    (0..n).rev().find(|&j| is_free_at(row, v, rows, h, j))
}

// The last free column at the least reduced cost of row `start`.
pub fn hit(costs: &[i32], rows: &[u32], start: u32, v: &[i64]) -> Option<usize>
    requires { CanSearch (length rows.now) costs.now rows.now start v.now }
    ensures { let n = length rows.now in let g = reduced_of n costs.now v.now start in LastOf n (free_at n g (at rows.now) (lowest n g).value) result }
{
    let own = row(costs, rows.len(), start as usize);
    let least = least_of(own, v);
    last_free_at(own, v, rows, least)
}
