// The auditor's tool: a slip held against its sheet. What is promised is said in specs/. Nothing here solves.
#![tactic(auto)]

ghost use Rattle.std.specs.Prelude.{◌≡◌, ◌+◌, ◌*◌, ◌≤◌, length, replicate};
ghost use Rattle.layout.specs.Editions.{number};
ghost use Rattle.layout.specs.Slips.{slip_total};
ghost use Rattle.matrix.specs.Verdicts.{◌then◌, fails_if};
ghost use Rattle.matrix.specs.declared.refusals.Reason.TheVariants.{SlipWrong};
ghost use Rattle.checker.specs.Tests.{differ};
ghost use Rattle.sheet.specs.Reading.{laid_at, bars_in, distance_due, night_tests, night_tested};
ghost use Rattle.audit.specs.Asked.{LeastTotal, Lies, Roomy};
ghost use Rattle.audit.specs.Audit.{unlike, proof_tests, slip_tests, total_right, audited_by, audited_as, audit};
ghost use Rattle.audit.specs.Values.{audited_values};

use layout::edition::Edition;
use layout::field::read_fields;
use layout::{said, trailer};
use matrix::tests::fails_if;
use matrix::{Reason, Refusal};
use sheet::reading;
use sheet::shape::Shape;

// A slip that holds: the sheet's side, and the total.
#[derive(Clone, Copy, Debug, PartialEq, Eq)]
pub struct Confirmed {
    pub side: usize,
    pub total: i64,
}

// Whether bytes are no slip of this shape. The mark is "SLIP", the lowest byte first.
fn unlike(shape: Shape, slip: &[u8]) -> bool
    ensures { result ≡ unlike (number shape.edition) shape.row_count shape.side slip.now }
{
    let distance = shape.slip_length() - 12;
    if slip.len() != distance + 12 {
        return true;
    }
    if trailer::unmarked(slip, 0x5049_4C53) {
        return true;
    }
    if trailer::distance_of(slip) != distance {
        return true;
    }
    if trailer::side_of(slip) != shape.side {
        return true;
    }
    if trailer::edition_of(slip) != shape.edition.number() {
        return true;
    }
    match shape.edition {
        Edition::Oblong => trailer::row_count_of(slip) != shape.row_count,
        _ => false,
    }
}

// Tests 6, 7, 26, 8, 9, 10, 27.
#[tactic(auto, unfolding(crate::specs::Audit::proof_tests))]
fn proof_tests(
    m: usize,
    n: usize,
    costs: &[i32],
    bars: &[u64],
    cols: &[u32],
    us: &[i64],
    vs: &[i64],
) -> Result<(), Refusal>
    requires { Lies m n costs.now bars.now × (length cols.now ≡ m) × (length us.now ≡ m) × (length vs.now ≡ n) }
    ensures { result ≡ proof_tests m n costs.now bars.now cols.now us.now vs.now }
{
    matrix::tests::columns_inside(m, n, cols)?;
    checker::choices::columns_once(m, cols)?;
    bars::tests::unbarred(m, bars, cols)?;
    checker::prices::priced(m, n, costs, cols, us, vs, bars)?;
    checker::choices::spares_not_below(m, n, cols, vs)
}

// The total once more, up to side 8: the plain engine's, which counts and writes in two rooms.
fn second(
    m: usize,
    n: usize,
    total: i64,
    costs: &[i32],
    bars: &[u64],
    list: &mut [u32],
    cols: &mut [u32],
) -> i64
    requires { LeastTotal m n costs.now bars.now total × (m ≤ n) × (length costs.now ≡ m * n) × (length list.old ≡ m) × (length cols.old ≡ m) }
    ensures { result ≡ total }
{
    if 8 < n {
        return total;
    }
    match plain::engine(n, costs, bars, list, cols) {
        Some(least) => least,
        None => total,
    }
}

// A slip whose pairing was accepted with this total: 25 where it says another.
fn compared(
    m: usize,
    n: usize,
    total: i64,
    costs: &[i32],
    bars: &[u64],
    slip: &[u8],
    list: &mut [u32],
    cols: &mut [u32],
) -> Result<Confirmed, Refusal>
    requires { LeastTotal m n costs.now bars.now total × (m ≤ n) × (n ≤ 64) × (length costs.now ≡ m * n) × (length list.old ≡ m) × (length cols.old ≡ m) × (10 * m + 8 * n + 8 ≤ length slip.now) }
    ensures { result ≡ audited_by m n slip.now (fails_if SlipWrong 0 (differ (slip_total m n slip.now) total)) }
{
    let least = second(m, n, total, costs, bars, list, cols);
    let said = said::total_of(slip, m, n);
    fails_if(said != least, Reason::SlipWrong, 0)?;
    Ok(Confirmed {
        side: n,
        total: said,
    })
}

// What a slip says is read into three rooms and held against the night: 6, 7, 26, 8, 9, 10, 27, and 25 for the total.
fn held(
    m: usize,
    n: usize,
    costs: &[i32],
    bars: &[u64],
    slip: &[u8],
    cols: &mut [u32],
    list: &mut [u32],
    us: &mut [i64],
    vs: &mut [i64],
) -> Result<Confirmed, Refusal>
    requires { Lies m n costs.now bars.now × Roomy m n cols.old list.old us.old vs.old × (10 * m + 8 * n + 8 ≤ length slip.now) }
    ensures { result ≡ audited_by m n slip.now (slip_tests m n costs.now bars.now slip.now then total_right m n costs.now bars.now slip.now) }
{
    read_fields(slip, 0, m, cols);
    read_fields(slip, 2 * m, m, us);
    read_fields(slip, 10 * m, n, vs);
    proof_tests(m, n, costs, bars, cols, us, vs)?;
    let total = matrix::total_of(m, n, costs, cols);
    compared(m, n, total, costs, bars, slip, list, cols)
}

// The same, in rooms of its own.
fn held_apart(
    m: usize,
    n: usize,
    costs: &[i32],
    bars: &[u64],
    slip: &[u8],
) -> Result<Confirmed, Refusal>
    requires { Lies m n costs.now bars.now × (10 * m + 8 * n + 8 ≤ length slip.now) }
    ensures { result ≡ audited_by m n slip.now (slip_tests m n costs.now bars.now slip.now then total_right m n costs.now bars.now slip.now) }
{
    let mut cols = [0u32; 64];
    let mut list = [0u32; 64];
    let mut us = [0i64; 64];
    let mut vs = [0i64; 64];
    held(
        m,
        n,
        costs,
        bars,
        slip,
        &mut cols[0..m],
        &mut list[0..m],
        &mut us[0..m],
        &mut vs[0..n],
    )
}

// A night as it lies on a sheet, and a slip's form: 5, 22, then 25.
#[tactic(auto, using(matrix::proofs::SmallLimits::K_small, sheet::proofs::Editions::cost_most_within))]
fn formed(shape: Shape, costs: &[i32], bars: &[u64], slip: &[u8]) -> Result<(), Refusal>
    requires { Lies shape.row_count shape.side costs.now bars.now }
    ensures { result ≡ (night_tests (record { edition = number shape.edition; row_count = shape.row_count; side = shape.side; costs = costs.now; bars = bars.now }) then fails_if SlipWrong 0 (unlike (number shape.edition) shape.row_count shape.side slip.now)) }
{
    matrix::tests::costs_in(shape.cost_most(), costs)?;
    bars::tests::bars_clear(shape.side, bars)?;
    fails_if(unlike(shape, slip), Reason::SlipWrong, 0)
}

// The same, and the slip is held against the night.
fn night_held(shape: Shape, costs: &[i32], bars: &[u64], slip: &[u8]) -> Result<Confirmed, Refusal>
    requires { Lies shape.row_count shape.side costs.now bars.now }
    ensures { result ≡ audited_as slip.now (night_tested (record { edition = number shape.edition; row_count = shape.row_count; side = shape.side; costs = costs.now; bars = bars.now })) }
{
    formed(shape, costs, bars, slip)?;
    held_apart(shape.row_count, shape.side, costs, bars, slip)
}

// The bars of a sheet of this shape are read into a room, where its edition has some.
fn read_bars(shape: Shape, sheet: &[u8], bars: &mut [u64])
    requires { (distance_due (number shape.edition) shape.row_count shape.side + 12 ≤ length sheet.now) × (bars.old ≡ replicate shape.side 0) }
    ensures { bars.new ≡ bars_in (number shape.edition) shape.side sheet.now }
{
    if shape.edition == Edition::Barred {
        read_fields(sheet, sheet.len() - 12 - 8 * shape.side, shape.side, bars);
    }
}

// A sheet of this shape that has passed its tests: its night is read into two rooms, and the slip held against it.
fn audit_night(
    shape: Shape,
    sheet: &[u8],
    slip: &[u8],
    costs: &mut [i32],
    bars: &mut [u64],
) -> Result<Confirmed, Refusal>
    requires { (distance_due (number shape.edition) shape.row_count shape.side + 12 ≤ length sheet.now) × (length costs.old ≡ shape.row_count * shape.side) × (bars.old ≡ replicate shape.side 0) }
    ensures { result ≡ audited_as slip.now (night_tested (laid_at (number shape.edition) shape.row_count shape.side (distance_due (number shape.edition) shape.row_count shape.side) sheet.now)) }
{
    let end = sheet.len() - 12;
    read_fields(
        sheet,
        end - shape.distance(),
        shape.row_count * shape.side,
        costs,
    );
    read_bars(shape, sheet, bars);
    night_held(shape, costs, bars, slip)
}

// The tool: a sheet is read, and the slip held against its night. A slip room for 64 rows and columns of edition 3 is said to be there, so that 16 does
// not arise.
pub fn audit(sheet: &[u8], slip: &[u8]) -> Result<Confirmed, Refusal>
    ensures { audited_values result ≡ audited_values (audit sheet.now slip.now) }
{
    let shape = reading::tests(sheet, 1174)?;
    let mut costs = [0i32; 4096];
    let mut bars = [0u64; 64];
    audit_night(
        shape,
        sheet,
        slip,
        &mut costs[0..shape.row_count * shape.side],
        &mut bars[0..shape.side],
    )
}
