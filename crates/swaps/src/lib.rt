// A second pairing with the same total, or that there is only one. What is promised is said in specs/.
#![tactic(auto)]

ghost use Rattle.std.specs.Prelude.{◌≡◌, ◌≤◌};
ghost use Rattle.bars.specs.Barred.{night_of};
ghost use Rattle.matrix.specs.Limits.{side};
ghost use Rattle.swaps.specs.Found.{CanFindIn};
ghost use Rattle.swaps.specs.Entries.{lent_of, outcome_of, outcome, told_of, lent_long, second_tests, second_square, second_barred_tests, second_barred, second_oblong_tests, second_oblong};

use crate::search::find_second;
use checker::choices::spares_not_below;
use checker::prices::priced;
use matrix::{Refusal, tests};

pub mod accepted;
pub mod choices;
pub mod moves;
pub mod search;
pub mod start;
pub mod walk;

// What an accepted pairing comes to, and whether another comes to the same.
#[derive(Clone, Copy, Debug, PartialEq, Eq)]
pub struct Pairings {
    pub total: i64,
    pub another: bool,
}

// Test 3 of list 6, the second's columns, which needs one for each row; and test 4.
fn lent_long(
    m: usize,
    n: usize,
    list: &[u32],
    indices: &[u32],
    numbers: &[i64],
) -> Result<(), Refusal>
    requires { n ≤ side }
    ensures { result ≡ lent_long m n (lent_of list.now indices.now numbers.now) }
{
    tests::list_long(6, m, list.len())?;
    tests::rooms_long(n, indices.len(), numbers.len())
}

// What an accepted pairing comes to, and whether another pairing has this total.
fn totalled(
    m: usize,
    n: usize,
    costs: &[i32],
    bars: &[u64],
    cols: &[u32],
    us: &[i64],
    vs: &[i64],
    list: &mut [u32],
    indices: &mut [u32],
    numbers: &mut [i64],
) -> Pairings
    requires { CanFindIn m n costs.now bars.now cols.now us.now vs.now list.old indices.old numbers.old }
    ensures { outcome_of (Ok result) (lent_of list.new indices.new numbers.new) ≡ outcome (night_of m n costs.now bars.now) cols.now us.now vs.now (lent_of list.old indices.old numbers.old) (Ok tt) }
{
    let total = matrix::total_of(m, n, costs, cols);
    let another = find_second(m, n, costs, bars, cols, us, vs, list, indices, numbers);
    Pairings { total, another }
}

// Tests 1 to 10 of a square night.
#[tactic(auto, using(checker::proofs::Past::shape), unfolding(crate::specs::Entries::second_tests))]
fn tested(
    n: usize,
    costs: &[i32],
    cols: &[u32],
    rows: &[u32],
    us: &[i64],
    vs: &[i64],
    list: &[u32],
    indices: &[u32],
    numbers: &[i64],
) -> Result<(), Refusal>
    ensures { result ≡ second_tests n costs.now cols.now rows.now us.now vs.now (lent_of list.now indices.now numbers.now) }
{
    tests::shaped(n, costs, cols.len(), rows.len(), us.len(), vs.len())?;
    lent_long(n, n, list, indices, numbers)?;
    checker::proven(n, costs, cols, rows, us, vs)
}

// Whether another pairing of a square night has the total of this one, given row prices us and column prices vs that show it to be least. Its columns
// go to `list`; the work room is the solver's.
#[tactic(auto, using(crate::proofs::Entering::square_can_find, crate::proofs::Entering::plain_outcome, crate::proofs::Entering::refused_outcome), unfolding(crate::specs::Entries::second_square))]
pub fn second(
    n: usize,
    costs: &[i32],
    cols: &[u32],
    rows: &[u32],
    us: &[i64],
    vs: &[i64],
    list: &mut [u32],
    indices: &mut [u32],
    numbers: &mut [i64],
) -> Result<Pairings, Refusal>
    ensures { told_of (outcome_of result (lent_of list.new indices.new numbers.new)) ≡ told_of (second_square n costs.now cols.now rows.now us.now vs.now (lent_of list.old indices.old numbers.old)) }
{
    tested(n, costs, cols, rows, us, vs, list, indices, numbers)?;
    Ok(totalled(n, n, costs, &[], cols, us, vs, list, indices, numbers))
}

// Tests 1, 2, 3, 4, 5, 22, 6, 7, 26, 8, 9, 10 of a night with bars.
#[tactic(auto, using(checker::proofs::Past::barred_shape, checker::proofs::Past::barred_listed, checker::proofs::Past::small_fit), unfolding(crate::specs::Entries::second_barred_tests))]
fn tested_barred(
    n: usize,
    costs: &[i32],
    cols: &[u32],
    rows: &[u32],
    us: &[i64],
    vs: &[i64],
    bars: &[u64],
    list: &[u32],
    indices: &[u32],
    numbers: &[i64],
) -> Result<(), Refusal>
    ensures { result ≡ second_barred_tests n costs.now cols.now rows.now us.now vs.now bars.now (lent_of list.now indices.now numbers.now) }
{
    checker::shaped_barred(
        n,
        costs,
        cols.len(),
        rows.len(),
        us.len(),
        vs.len(),
        bars.len(),
    )?;
    lent_long(n, n, list, indices, numbers)?;
    checker::paired_barred(n, costs, cols, rows, bars)?;
    priced(n, n, costs, cols, us, vs, bars)
}

// The same of a night with bars: for each row a number whose bits are the columns barred to it.
#[tactic(auto, using(crate::proofs::Entering::barred_can_find, crate::proofs::Entering::refused_outcome), unfolding(crate::specs::Entries::second_barred))]
pub fn second_barred(
    n: usize,
    costs: &[i32],
    cols: &[u32],
    rows: &[u32],
    us: &[i64],
    vs: &[i64],
    bars: &[u64],
    list: &mut [u32],
    indices: &mut [u32],
    numbers: &mut [i64],
) -> Result<Pairings, Refusal>
    ensures { told_of (outcome_of result (lent_of list.new indices.new numbers.new)) ≡ told_of (second_barred n costs.now cols.now rows.now us.now vs.now bars.now (lent_of list.old indices.old numbers.old)) }
{
    tested_barred(n, costs, cols, rows, us, vs, bars, list, indices, numbers)?;
    Ok(totalled(n, n, costs, bars, cols, us, vs, list, indices, numbers))
}

// Tests 1, 23, 2, 3, 4, 5, 6, 7, 8, 9, 10, 27 of an oblong night.
#[tactic(auto, using(checker::proofs::Past::oblong_shape, checker::proofs::Past::oblong_listed, checker::proofs::Past::none_fit, checker::proofs::Past::listed_more), unfolding(crate::specs::Entries::second_oblong_tests))]
fn tested_oblong(
    m: usize,
    n: usize,
    costs: &[i32],
    cols: &[u32],
    us: &[i64],
    vs: &[i64],
    list: &[u32],
    indices: &[u32],
    numbers: &[i64],
) -> Result<(), Refusal>
    ensures { result ≡ second_oblong_tests m n costs.now cols.now us.now vs.now (lent_of list.now indices.now numbers.now) }
{
    checker::shaped_oblong(m, n, costs, cols.len(), us.len(), vs.len())?;
    lent_long(m, n, list, indices, numbers)?;
    checker::paired_oblong(m, n, costs, cols)?;
    priced(m, n, costs, cols, us, vs, &[])?;
    spares_not_below(m, n, cols, vs)
}

// The same of an oblong night: m rows, each with its own of n columns.
#[tactic(auto, using(crate::proofs::Entering::oblong_can_find, crate::proofs::Entering::refused_outcome), unfolding(crate::specs::Entries::second_oblong))]
pub fn second_oblong(
    m: usize,
    n: usize,
    costs: &[i32],
    cols: &[u32],
    us: &[i64],
    vs: &[i64],
    list: &mut [u32],
    indices: &mut [u32],
    numbers: &mut [i64],
) -> Result<Pairings, Refusal>
    ensures { told_of (outcome_of result (lent_of list.new indices.new numbers.new)) ≡ told_of (second_oblong m n costs.now cols.now us.now vs.now (lent_of list.old indices.old numbers.old)) }
{
    tested_oblong(m, n, costs, cols, us, vs, list, indices, numbers)?;
    Ok(totalled(m, n, costs, &[], cols, us, vs, list, indices, numbers))
}
