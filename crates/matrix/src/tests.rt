// The tests that several entries share: each answers why the input is refused, so that an entry's tests are a chain.
ghost use Rattle.std.specs.Prelude.{◌≡◌, ℕ, [], ◌∷◌, ◌*◌, ◌^◌, ◌≤◌, leb, pos, length};
ghost use Rattle.ints.specs.Parts.{Within};
ghost use Rattle.lists.specs.Runs.{Finds};
ghost use Rattle.lists.specs.Permutations.{at};
ghost use Rattle.lists.specs.Counts.{some};
ghost use Rattle.assignment.specs.Pairings.{signed_at};
ghost use Rattle.matrix.specs.Limits.{side, K};
ghost use Rattle.matrix.specs.Verdicts.{fails_if, fails_found};
ghost use Rattle.matrix.specs.Tests.{short, outside, side_within, costs_fill, lists_long, list_long, shaped, list_short, rooms_long, costs_in, costs_within, columns_inside, prices_in, prices_within};

use crate::limits::{bound, price_bound, side};
use crate::{Reason, Refusal};

// Whether x is below -limit or above limit.
fn outside(x: i64, limit: i64) -> bool
    requires { Within (2 ^ 62) limit }
    ensures { result ≡ outside limit x }
{
    x < -limit || limit < x
}

// Refused where the test holds.
#[tactic(auto, unfolding(crate::specs::Verdicts::fails_by))]
pub fn fails_if(test: bool, reason: Reason, place: usize) -> Result<(), Refusal>
    ensures { result ≡ fails_if reason place test }
{
    if test {
        return Err(Refusal::new(reason, place));
    }
    Ok(())
}

// Refused at the place found, where there is one.
pub fn fails_at(found: Option<usize>, reason: Reason) -> Result<(), Refusal>
    ensures { result ≡ fails_found reason (λ k. k) found }
{
    match found {
        Some(place) => Err(Refusal::new(reason, place)),
        None => Ok(()),
    }
}

// Test 1.
pub fn side_within(limit: usize, n: usize) -> Result<(), Refusal>
    ensures { result ≡ side_within limit n }
{
    fails_if(limit < n, Reason::SideOver, 0)
}

// Test 2.
pub fn costs_fill(m: usize, n: usize, costs: &[i32]) -> Result<(), Refusal>
    requires { (m ≤ side) × (n ≤ side) }
    ensures { result ≡ costs_fill m n costs.now }
{
    fails_if(costs.len() != m * n, Reason::CostsLength, 0)
}

// Test 3 of `cost`.
pub fn list_short(n: usize, length: usize) -> Result<(), Refusal>
    ensures { result ≡ list_short n length }
{
    fails_if(n < length, Reason::ListLength, 1)
}

// Refusal 3: the first of some lengths that is below n.
fn first_short(n: usize, lengths: &[usize]) -> Option<usize>
    ensures { Finds (length lengths.now) (short n lengths.now) result }
{
    lengths.iter().position(|&length| length < n)
}

// Test 3, of four lists, whose lengths are given in the scope's order.
pub fn lists_long(n: usize, cols: usize, rows: usize, us: usize, vs: usize) -> Result<(), Refusal>
    ensures { result ≡ lists_long n (cols ∷ rows ∷ us ∷ vs ∷ []) }
{
    match first_short(n, &[cols, rows, us, vs]) {
        Some(k) => Err(Refusal::new(Reason::ListLength, k + 1)),
        None => Ok(()),
    }
}

// Test 3, of the list with this number.
pub fn list_long(number: usize, n: usize, length: usize) -> Result<(), Refusal>
    ensures { result ≡ list_long number n length }
{
    fails_if(length < n, Reason::ListLength, number)
}

// Tests 1, 2, 3 of a square night and its four lists.
pub fn shaped(
    n: usize,
    costs: &[i32],
    cols: usize,
    rows: usize,
    us: usize,
    vs: usize,
) -> Result<(), Refusal>
    ensures { result ≡ shaped n costs.now (cols ∷ rows ∷ us ∷ vs ∷ []) }
{
    side_within(side(), n)?;
    costs_fill(n, n, costs)?;
    lists_long(n, cols, rows, us, vs)
}

// Test 4, given the lengths of the two rooms.
pub fn rooms_long(n: usize, indices: usize, numbers: usize) -> Result<(), Refusal>
    requires { n ≤ side }
    ensures { result ≡ rooms_long n indices numbers }
{
    fails_if(indices < 4 * n, Reason::RoomShort, 1)?;
    fails_if(numbers < n, Reason::RoomShort, 2)
}

// Whether some cost is outside -limit..limit. The pass ends at no cost and compares at the costs' own width, so that several are compared at once.
fn some_cost_outside(limit: i32, costs: &[i32]) -> bool
    requires { Within K limit }
    ensures { result ≡ some (length costs.now) (λ k. outside limit (signed_at costs.now k)) }
{
    let low = -limit;
    let mut found = false;
    for &cost in costs {
        found |= (cost < low) | (limit < cost);
    }
    found
}

// Refusal 5: the first cost outside -limit..limit, in row order. It is looked for only where one pass tells of one, or the limit is outside -K..K.
fn first_cost_outside(limit: i64, costs: &[i32]) -> Option<usize>
    requires { Within (2 ^ 62) limit }
    ensures { Finds (length costs.now) (λ k. outside limit (signed_at costs.now k)) result }
{
    if !outside(limit, bound()) && !some_cost_outside(limit as i32, costs) {
        return None;
    }
    for (k, &cost) in costs.iter().enumerate() {
        if outside(i64::from(cost), limit) {
            return Some(k);
        }
    }
    None
}

// Test 5, of costs in -limit..limit.
#[tactic(auto, using(crate::proofs::Verdicts::found_fails))]
pub fn costs_in(limit: i64, costs: &[i32]) -> Result<(), Refusal>
    requires { Within (2 ^ 62) limit }
    ensures { result ≡ costs_in limit costs.now }
{
    fails_at(first_cost_outside(limit, costs), Reason::CostOutside)
}

// Test 5.
pub fn costs_within(costs: &[i32]) -> Result<(), Refusal>
    ensures { result ≡ costs_within costs.now }
{
    costs_in(bound(), costs)
}

// Refusal 6: the first of `count` rows whose listed column is not below n.
fn first_column_outside(n: usize, cols: &[u32], count: usize) -> Option<usize>
    requires { count ≤ length cols.now }
    ensures { Finds count (λ i. leb n (at cols.now i)) result }
{
    cols[..count].iter().position(|&j| n <= j as usize)
}

// Test 6.
#[tactic(auto, using(crate::proofs::Verdicts::found_fails))]
pub fn columns_inside(count: usize, n: usize, cols: &[u32]) -> Result<(), Refusal>
    requires { count ≤ length cols.now }
    ensures { result ≡ columns_inside count n cols.now }
{
    fails_at(first_column_outside(n, cols, count), Reason::ColumnOutside)
}

// The first of n prices outside -limit..limit.
fn first_price_outside(limit: i64, n: usize, prices: &[i64]) -> Option<usize>
    requires { Within (2 ^ 62) limit × (n ≤ length prices.now) }
    ensures { Finds n (λ i. outside limit (signed_at prices.now i)) result }
{
    for (i, &price) in prices[..n].iter().enumerate() {
        if outside(price, limit) {
            return Some(i);
        }
    }
    None
}

// A test of all prices, under the reason of its refusal.
pub fn prices_in(
    reason: Reason,
    limit: i64,
    m: usize,
    n: usize,
    us: &[i64],
    vs: &[i64],
) -> Result<(), Refusal>
    requires { Within (2 ^ 62) limit × (m ≤ side) × (n ≤ side) × (m ≤ length us.now) × (n ≤ length vs.now) }
    ensures { result ≡ prices_in reason limit m n us.now vs.now }
{
    fails_at(first_price_outside(limit, m, us), reason)?;
    match first_price_outside(limit, n, vs) {
        Some(j) => Err(Refusal::new(reason, m + j)),
        None => Ok(()),
    }
}

// Test 8.
pub fn prices_within(m: usize, n: usize, us: &[i64], vs: &[i64]) -> Result<(), Refusal>
    requires { (m ≤ side) × (n ≤ side) × (m ≤ length us.now) × (n ≤ length vs.now) }
    ensures { result ≡ prices_within m n us.now vs.now }
{
    prices_in(Reason::PriceOutside, price_bound(), m, n, us, vs)
}
