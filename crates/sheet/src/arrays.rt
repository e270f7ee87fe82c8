// The state: a night is read into its arrays, tested, filled and solved in them.
ghost use Rattle.std.specs.Prelude.{◌≡◌, ℕ, ◌+◌, ◌*◌, ◌≤◌, ◌<◌, take, length};
ghost use Rattle.lists.specs.Permutations.{at};
ghost use Rattle.layout.specs.Editions.{number};
ghost use Rattle.lapjv.specs.Solve.{outcome_of, solve};
ghost use Rattle.sheet.specs.Reading.{distance_due};
ghost use Rattle.sheet.specs.Settle.{fresh, lent, state_of};
ghost use Rattle.sheet.specs.Steps.{read_into, bars_into, filled_in, settled_with, settled_in, state_tests, unbarred};

use crate::shape::Shape;
use crate::{State, Unpaired};
use lapjv::Sums;
use layout::edition::Edition;
use layout::field::read_fields;
use matrix::Refusal;

// K, once more as a cost: the promise holds the two together.
const DEAR: i32 = 1_000_000_000;

impl State {
    // All 0.
    pub(crate) fn fresh() -> Self
        ensures { result ≡ fresh }
    {
        State {
            costs: [0; 4096],
            bars: [0; 64],
            cols: [0; 64],
            rows: [0; 64],
            row_prices: [0; 64],
            col_prices: [0; 64],
            indices: [0; 256],
            numbers: [0; 64],
        }
    }

    // A sheet's costs are read over the front of the costs, and its bars, where its edition has some, over that of the bars.
    pub(crate) fn read(&mut self, shape: Shape, sheet: &[u8])
        requires { distance_due (number shape.edition) shape.row_count shape.side + 12 ≤ length sheet.now }
        ensures { self.new ≡ bars_into (number shape.edition) shape.side sheet.now (read_into (distance_due (number shape.edition) shape.row_count shape.side) (shape.row_count * shape.side) sheet.now self.old) }
    {
        let end = sheet.len() - 12;
        let count = shape.row_count * shape.side;
        read_fields(sheet, end - shape.distance(), count, &mut self.costs);
        if shape.edition == Edition::Barred {
            read_fields(sheet, end - 8 * shape.side, shape.side, &mut self.bars);
        }
    }

    // Tests 5 and 22.
    fn tested(&self, shape: Shape) -> Result<(), Refusal>
        ensures { result ≡ state_tests (number shape.edition) shape.row_count shape.side self.now }
    {
        let count = shape.row_count * shape.side;
        matrix::tests::costs_in(shape.cost_most(), &self.costs[..count])?;
        bars::tests::bars_clear(shape.side, &self.bars)
    }

    // The first n*n costs have K on barred places.
    #[tactic(auto, unfolding(matrix::specs::Limits::K))]
    fn fill(&mut self, n: usize)
        requires { n ≤ 64 }
        ensures { self.new ≡ filled_in n self.old }
    {
        bars::fill(n, &mut self.costs, &self.bars, DEAR);
    }

    // The arrays are lent to the solver.
    fn solve(&mut self, n: usize) -> Result<Sums, Refusal>
        requires { n ≤ 64 }
        ensures outcome { outcome_of result (lent self.new) ≡ solve n (take (n * n) self.old.costs) (lent self.old) }
        ensures kept { self.new ≡ state_of self.old.costs self.old.bars (lent self.new) }
    {
        lapjv::solve(
            n,
            &self.costs[..n * n],
            &mut self.cols,
            &mut self.rows,
            &mut self.row_prices,
            &mut self.col_prices,
            &mut self.indices,
            &mut self.numbers,
        )
    }

    // The first n pairs are none of them barred, or the first that is leads to rows that are shown.
    #[tactic(auto, using(crate::proofs::Columns::barred_here, crate::proofs::Columns::barred_nowhere))]
    fn unbarred(&self, n: usize) -> Result<(), Unpaired>
        requires { (n ≤ 64) × ((i : ℕ) → i < n → at self.now.cols i < n) }
        ensures { result ≡ unbarred tt n self.now }
    {
        match bars::first_barred(n, &self.bars, &self.cols) {
            Some(i) => Err(Unpaired::Blocked(bars::reached::reached_mask(
                n, &self.bars, &self.cols, i,
            ))),
            None => Ok(()),
        }
    }

    // The night that was read is tested, filled and solved; its total.
    pub(crate) fn pair(&mut self, shape: Shape) -> Result<i64, Unpaired>
        ensures { settled_with (number shape.edition) shape.row_count shape.side result self.new ≡ settled_in (number shape.edition) shape.row_count shape.side self.old }
    {
        self.tested(shape)?;
        self.fill(shape.side);
        let sums = self.solve(shape.side)?;
        self.unbarred(shape.side)?;
        Ok(sums.total)
    }
}
