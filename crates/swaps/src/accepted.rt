// An accepted night as the walk looks at it.
ghost use Rattle.std.specs.Prelude.{◌≡◌};
ghost use Rattle.lists.specs.Permutations.{table};
ghost use Rattle.bars.specs.Barred.{night_of};
ghost use Rattle.swaps.specs.Second.{behind, dearest};
ghost use Rattle.swaps.specs.Rooms.{Fair};

// A night of m rows and n columns with a pairing that its prices show to be least; and of each column the row behind it, m where the column is
// spare, and the highest price of a used column.
#[derive(Clone, Copy)]
pub struct Accepted<'a> {
    pub m: usize,
    pub n: usize,
    pub costs: &'a [i32],
    pub bars: &'a [u64],
    pub cols: &'a [u32],
    pub us: &'a [i64],
    pub vs: &'a [i64],
    pub rows: &'a [u32],
    pub top: i64,
    ghost fair: { Fair m n costs.now bars.now cols.now us.now vs.now },
    ghost listed: { rows.now ≡ table n (λ j. behind (night_of m n costs.now bars.now) cols.now j) },
    ghost highest: { top ≡ dearest (night_of m n costs.now bars.now) vs.now cols.now },
}
