// The tests of bars: each answers why the input is refused.
ghost use Rattle.std.specs.Prelude.{◌≡◌, ◌≤◌, pos, length};
ghost use Rattle.matrix.specs.Asked.{ColumnsListed};
ghost use Rattle.bars.specs.Tests.{barred_most, costs_small, bars_clear, unbarred};

use crate::{first_barred, first_bits_above};
use matrix::tests::{costs_in, fails_at};
use matrix::{Reason, Refusal};

// The number once more, beside specs/Tests.antt: code cannot read a definition. The promise holds the two together.
#[tactic(auto, unfolding(crate::specs::Tests::barred_most))]
pub fn barred_most() -> i64
    ensures { result ≡ pos barred_most }
{
    1000000
}

// Test 5, of costs with bars.
#[tactic(auto, using(crate::proofs::Passed::barred_most_small, matrix::proofs::SmallLimits::K_small))]
pub fn costs_small(costs: &[i32]) -> Result<(), Refusal>
    ensures { result ≡ costs_small costs.now }
{
    costs_in(barred_most(), costs)
}

// Test 22.
#[tactic(auto, using(matrix::proofs::Verdicts::found_fails))]
pub fn bars_clear(n: usize, bars: &[u64]) -> Result<(), Refusal>
    requires { (n ≤ 64) × (n ≤ length bars.now) }
    ensures { result ≡ bars_clear n bars.now }
{
    fails_at(first_bits_above(n, bars), Reason::BarsPastSide)
}

// Test 26, of m rows and up to 64 columns.
#[tactic(auto, using(matrix::proofs::Verdicts::found_fails))]
pub fn unbarred(m: usize, bars: &[u64], cols: &[u32]) -> Result<(), Refusal>
    requires { ColumnsListed m 64 cols.now }
    ensures { result ≡ unbarred m bars.now cols.now }
{
    fails_at(first_barred(m, bars, cols), Reason::BarredPair)
}
