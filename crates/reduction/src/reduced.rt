// The reduced costs of a row: what rules 1 and 3 look at.
ghost use Rattle.std.specs.Prelude.{◌≡◌, length};
ghost use Rattle.reduction.specs.Ranges.{Near};

use rules::Low;

// A row of costs, and a price for each of its columns. Prices are near.
#[derive(Clone, Copy)]
pub struct Reduced<'a> {
    pub costs: &'a [i32],
    pub prices: &'a [i64],
    ghost size: { length prices.now ≡ length costs.now },
    ghost near_prices: { Near (length costs.now) prices.now },
}

impl<'a> Reduced<'a> {
    ghost use Rattle.std.specs.Prelude.{◌<◌};
    ghost use Rattle.std.specs.Int.Signed.{lt_z};
    ghost use Rattle.lists.specs.Runs.{FindsFrom};
    ghost use Rattle.rules.specs.Lowest.{low};
    ghost use Rattle.reduction.specs.Reduced.{width, reduced_at};

    // How many columns there are.
    pub fn width(self) -> usize
        ensures { result ≡ width self.entry }
    {
        self.costs.len()
    }

    // The reduced cost of column j.
    pub fn at(self, j: usize) -> i64
        requires { j < width self }
        ensures { result ≡ reduced_at self.entry j }
    {
        matrix::rows::reduced_cost(self.costs[j], self.prices[j])
    }

    // The same at its place.
    pub fn low_at(self, j: usize) -> Low
        requires { j < width self }
        ensures { result ≡ low (reduced_at self.entry j) j }
    {
        Low {
            value: self.at(j),
            place: j,
        }
    }

    // The first column from `from` on whose reduced cost is below a bound.
    pub fn next_below(self, from: usize, bound: i64) -> Option<usize>
        ensures { FindsFrom from (width self.entry) (λ j t. t ≡ lt_z (reduced_at self.entry j) bound) result }
    {
        lists::first_from(
            from,
            self.width(),
            |j|
                requires { j < width self }
                ensures { result ≡ lt_z (reduced_at self.entry j) bound }
            { self.at(j) < bound },
        )
    }
}
