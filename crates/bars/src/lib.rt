// Nights with bars: a number for each row, whose bits are the columns barred to it. What is promised is said in specs/.
#![tactic(auto)]

ghost use Rattle.std.specs.Prelude.{◌≡◌, ◌++◌, ◌*◌, ◌<◌, ◌≤◌, length, drop};
ghost use Rattle.lists.specs.Runs.{Finds};
ghost use Rattle.lists.specs.Counts.{bit_of};
ghost use Rattle.lists.specs.Permutations.{at, table};
ghost use Rattle.matrix.specs.Asked.{ColumnsListed};
ghost use Rattle.bars.specs.Barred.{bits_above, filled_in, filled_costs};

use crate::bits::{has, has_from};

pub mod bits;
pub mod reached;
pub mod tests;

// The bits of row i: 0 where the list has no entry for it.
pub fn bits_at(bars: &[u64], i: usize) -> u64
    ensures { result ≡ at bars.now i }
{
    bars.get(i).copied().unwrap_or(0)
}

// Whether column j is barred to row i.
pub fn is_barred(bars: &[u64], i: usize, j: usize) -> bool
    requires { j < 64 }
    ensures { result ≡ bit_of (at bars.now i) j }
{
    has(bits_at(bars, i), j)
}

// The first of n rows that has a bit from n up.
pub fn first_bits_above(n: usize, bars: &[u64]) -> Option<usize>
    requires { (n ≤ 64) × (n ≤ length bars.now) }
    ensures { Finds n (λ i. bits_above n (at bars.now i)) result }
{
    bars[..n].iter().position(|&b| has_from(b, n))
}

// The first of m rows that is paired at a barred place.
pub fn first_barred(m: usize, bars: &[u64], cols: &[u32]) -> Option<usize>
    requires { ColumnsListed m 64 cols.now }
    ensures { Finds m (λ i. bit_of (at bars.now i) (at cols.now i)) result }
{
    (0..m).find(|&i| is_barred(bars, i, cols[i] as usize))
}

// A row of costs, with this cost on its barred places. By index: of a list that `iter_mut` went over the proof knows no element.
#[tactic(auto, using(crate::proofs::FilledRow::row_rules))]
fn fill_row(row: &mut [i32], bits: u64, dear: i32)
    requires { length row.old ≤ 64 }
    ensures { row.new ≡ table (length row.old) (filled_in bits dear row.old) }
{
    if bits == 0 {
        return;
    }
    for j in 0..row.len() {
        if has(bits, j) {
            row[j] = dear;
        }
    }
}

// The first n * n costs, with this cost on barred places; what stands behind them stays.
#[tactic(auto, using(crate::proofs::FilledCosts::rows_rules))]
pub fn fill(n: usize, costs: &mut [i32], bars: &[u64], dear: i32)
    requires { (n ≤ 64) × (n * n ≤ length costs.old) × (n ≤ length bars.now) }
    ensures { costs.new ≡ filled_costs n dear costs.old bars.now ++ drop (n * n) costs.old }
{
    for (i, &barred) in bars[..n].iter().enumerate() {
        fill_row(&mut costs[i * n..(i + 1) * n], barred, dear);
    }
}
