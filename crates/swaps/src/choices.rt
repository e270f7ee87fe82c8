// Which choice of a node leads on: of a row the first column over which it could move, of the spare columns the first row that could come down to one.
ghost use Rattle.std.specs.Prelude.{◌≡◌, ℕ, ◌*◌, ◌≤◌, ◌<◌, not, ◌&&◌, ◌||◌, ltb, eqb, ◌+ℤ◌, length};
ghost use Rattle.std.specs.Int.Signed.{le_z};
ghost use Rattle.ints.specs.Parts.{Within};
ghost use Rattle.lists.specs.Permutations.{at};
ghost use Rattle.lists.specs.Runs.{Finds, FindsFrom};
ghost use Rattle.lists.specs.Counts.{bit_of};
ghost use Rattle.assignment.specs.Pairings.{signed_at};
ghost use Rattle.matrix.specs.Limits.{K, near};
ghost use Rattle.swaps.specs.Places.{free, goes_over, comes_down};
ghost use Rattle.swaps.specs.Turning.{leads_on, CanChoose};

use crate::accepted::Accepted;
use crate::walk::DONE;
use bars::bits::has;
use bars::bits_at;
use matrix::rows::row_of;

// Whether the prices of a place are not below its cost.
fn level(cost: i32, u: i64, v: i64) -> bool
    requires { Within (10 * K) u × Within near v }
    ensures { result ≡ le_z cost (u +ℤ v) }
{
    i64::from(cost) <= u + v
}

// Whether column j is barred by these bits. (A shift by 64 or more would be an error.)
fn barred(bits: u64, j: usize) -> bool
    ensures { result ≡ bit_of bits j }
{
    j < 64 && has(bits, j)
}

// Whether the node k behind a column may be gone to from row i.
fn live_behind(k: usize, i: usize, mark: u32, m: usize, v: i64, top: i64) -> bool
    ensures { result ≡ (not (eqb k i) && not (eqb mark 2) && (ltb k m || le_z v top)) }
{
    k != i && mark != DONE && (k < m || v <= top)
}

// Whether a row with this mark, whose column has price v, could come down to a spare column.
fn comes_down(top: i64, v: i64, mark: u32) -> bool
    ensures { result ≡ (not (eqb mark 2) && le_z top v) }
{
    mark != DONE && top <= v
}

impl Accepted<'_> {
    // Whether row i, with these bars, may go over column j, whatever it costs.
    fn free(&self, marks: &[u32], i: usize, bits: u64, v: i64, j: usize) -> bool
        requires { (j < length self.now.rows.now) × (at self.now.rows.now j < length marks.now) }
        ensures { result ≡ free self.now.m self.now.top bits i v self.now.rows.now marks.now j }
    {
        let k = self.rows[j] as usize;
        live_behind(k, i, marks[k], self.m, v, self.top) && !barred(bits, j)
    }

    // Whether row i goes over column j, at this cost and these prices.
    fn goes_over(
        &self,
        marks: &[u32],
        i: usize,
        bits: u64,
        cost: i32,
        u: i64,
        v: i64,
        j: usize,
    ) -> bool
        requires { Within (10 * K) u × Within near v × (j < length self.now.rows.now) × (at self.now.rows.now j < length marks.now) }
        ensures { result ≡ (le_z cost (u +ℤ v) && free self.now.m self.now.top bits i v self.now.rows.now marks.now j) }
    {
        level(cost, u, v) && self.free(marks, i, bits, v, j)
    }

    // The first column from `from` on over which row i goes, with these bars, costs and prices.
    fn first_way(
        &self,
        marks: &[u32],
        i: usize,
        bits: u64,
        row: &[i32],
        u: i64,
        vs: &[i64],
        from: usize,
    ) -> Option<usize>
        requires { Within (10 * K) u × (length row.now ≤ length vs.now) × ((j : ℕ) → j < length row.now → Within near (signed_at vs.now j)) × (length row.now ≤ length self.now.rows.now) × ((j : ℕ) → j < length row.now → at self.now.rows.now j < length marks.now) }
        ensures { FindsFrom from (length row.now) (λ j t. goes_over self.now.m self.now.top bits i row.now u vs.now self.now.rows.now marks.now j ≡ t) result }
    {
        (from..row.len()).find(|&j| self.goes_over(marks, i, bits, row[j], u, vs[j], j))
    }

    // The first row from `from` on that could come down to a spare column.
    fn first_down(&self, marks: &[u32], from: usize) -> Option<usize>
        requires { (self.now.m ≤ length self.now.cols.now) × (self.now.m ≤ length marks.now) × ((i : ℕ) → i < self.now.m → at self.now.cols.now i < length self.now.vs.now) }
        ensures { FindsFrom from self.now.m (λ i t. comes_down self.now.top self.now.cols.now self.now.vs.now marks.now i ≡ t) result }
    {
        (from..self.m).find(|&i| comes_down(self.top, self.vs[self.cols[i] as usize], marks[i]))
    }

    // The first choice of node x that leads to a node which is not done: the search begins at `from`, the choice to which x has come. Prices of columns
    // behind which a node is done may have been lowered.
    pub fn choose(&self, marks: &[u32], prices: &[i64], x: usize, from: usize) -> Option<usize>
        requires { CanChoose self.now marks.now prices.now x from }
        ensures { Finds self.now.n (λ c. leads_on self.now marks.now x c) result }
    {
        if x < self.m {
            let row = row_of(self.costs, self.n, x);
            return self.first_way(
                marks,
                x,
                bits_at(self.bars, x),
                row,
                self.us[x],
                prices,
                from,
            );
        }
        self.first_down(marks, from)
    }
}
