// The rows reached over allowed places and back over a pairing, and their columns, as the bits of a u64.
ghost use Rattle.std.specs.Prelude.{◌≡◌, ℕ, ◌<◌, ◌≤◌, length};
ghost use Rattle.lists.specs.Permutations.{at};
ghost use Rattle.bars.specs.Asked.{BarsListed};
ghost use Rattle.bars.specs.Masks.{columns_mask, paired_mask, reached_mask};

use crate::bits::{full, has, with_bit};

// The columns allowed to the rows of a set.
#[tactic(auto, using(crate::proofs::Turns::run), unfolding(crate::specs::Masks::columns_mask))]
pub fn columns_mask(n: usize, bars: &[u64], rows: u64) -> u64
    requires { (n ≤ 64) × (n ≤ length bars.now) }
    ensures { result ≡ columns_mask n bars.now rows }
{
    let all = full(n);
    let mut columns = 0u64;
    for (i, &barred) in bars[..n].iter().enumerate() {
        if has(rows, i) {
            columns |= all ^ barred;
        }
    }
    columns
}

// With the rows, those that are paired with one of the columns.
#[tactic(auto, using(crate::proofs::Turns::run), unfolding(crate::specs::Masks::paired_mask))]
pub fn paired_mask(n: usize, cols: &[u32], columns: u64, rows: u64) -> u64
    requires { (n ≤ 64) × (n ≤ length cols.now) × ((i : ℕ) → i < n → at cols.now i < 64) }
    ensures { result ≡ paired_mask n cols.now columns rows }
{
    let mut set = rows;
    for (i, &j) in cols[..n].iter().enumerate() {
        if has(columns, j as usize) {
            set = with_bit(set, i);
        }
    }
    set
}

// The rows reached from row i. As many rounds as rows are enough.
#[tactic(auto, using(crate::proofs::Turns::run), unfolding(crate::specs::Masks::reached_mask))]
pub fn reached_mask(n: usize, bars: &[u64], cols: &[u32], i: usize) -> u64
    requires { BarsListed n bars.now cols.now × (i < n) }
    ensures { result ≡ reached_mask n bars.now cols.now i }
{
    let mut rows = with_bit(0, i);
    for _ in 0..n {
        let columns = columns_mask(n, bars, rows);
        rows = paired_mask(n, cols, columns, rows);
    }
    rows
}
