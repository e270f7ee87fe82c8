// The face for C and Rust: thin, no logic. Each slice is a pointer and its length in elements; structs are returned by value.
#![tactic(auto)]

ghost use Rattle.std.specs.Prelude.{◌≡◌};
ghost use Rattle.matrix.specs.Cost.{cost};
ghost use Rattle.matrix.specs.Answers.{values_of};
ghost use Rattle.matrix.specs.Asked.{TellableIn};
ghost use Rattle.plain.specs.Engine.{plain};
ghost use Rattle.audit.specs.Asked.{TellableAudited};
ghost use Rattle.audit.specs.Audit.{audit};
ghost use Rattle.audit.specs.Values.{audited_values};
ghost use Rattle.score.specs.Score.{score};
ghost use Rattle.score.specs.ScoreSheet.{Filled, score_sheet};
ghost use Rattle.checker.specs.Check.{check, check_barred, check_oblong};
ghost use Rattle.lapjv.specs.Solve.{lent_of, solve};
ghost use Rattle.lapjv.specs.Values.{solved_values, told_of};
ghost use Rattle.lapjv.specs.Asked.{TellableSolved};
ghost use Rattle.repair.specs.Repair.{repair};
ghost use Rattle.sheet.specs.Settle.{Delivery, pair};
ghost use Rattle.pieces.specs.Kept.{kept};
ghost use Rattle.pieces.specs.Calls.{taken, piece, ending, delivered, end, reset};
ghost use Rattle.swaps.specs.Entries.{second_values, second_square, second_barred, second_oblong};
ghost use Rattle.face.specs.Seconds.{seconded_any, three, HandedSecond, handed_second, handed_second_any};
ghost use Rattle.face.specs.Face.{totalled, HandedColumns, handed_columns, audit_told, checked, checked_any, solution, Handed, handed, HandedBack, handed_back};

use audit::Confirmed;
use lapjv::Sums;
use matrix::Refusal;
use swaps::Pairings;

// What `cost` and `score` answer: a total, or a refusal and 0. The refusal is 0 or number + 256*place.
#[repr(C)]
#[derive(Clone, Copy)]
pub struct Totalled {
    pub refusal: u64,
    pub total: i64,
}

// What the checker and a repair answer: a total, or a refusal and the slack that it carries.
#[repr(C)]
#[derive(Clone, Copy)]
pub struct Checked {
    pub refusal: u64,
    pub total: i64,
    pub slack: i64,
}

// What an audit answers: side and total of a slip that holds, or a refusal and zeros.
#[repr(C)]
#[derive(Clone, Copy)]
pub struct Audit {
    pub refusal: u64,
    pub side: u64,
    pub total: i64,
}

// A total and the six counts, or a refusal and zeros.
#[repr(C)]
#[derive(Clone, Copy)]
pub struct Solution {
    pub refusal: u64,
    pub total: i64,
    pub free_rows: u64,
    pub looks_one: u64,
    pub left_one: u64,
    pub looks_two: u64,
    pub rows_left: u64,
    pub columns_scanned: u64,
}

// A total and whether another pairing has it, 0 or 1; or a refusal and the slack that it carries.
#[repr(C)]
#[derive(Clone, Copy)]
pub struct Second {
    pub refusal: u64,
    pub total: i64,
    pub slack: i64,
    pub also: u64,
}

// What a C caller gets of the answer of `cost` or `score`.
fn told(answer: Result<i64, Refusal>) -> Totalled
    requires { TellableIn answer }
    ensures { result ≡ totalled (values_of answer) }
{
    match answer {
        Ok(total) => Totalled { refusal: 0, total },
        Err(refusal) => Totalled {
            refusal: refusal.code(),
            total: 0,
        },
    }
}

// The crate's `cost`.
#[unsafe(no_mangle)]
pub extern "C" fn bristlefrost_cost(n: usize, costs: &[i32], listed: &[u32]) -> Totalled
    ensures { result ≡ totalled (values_of (cost n costs.now listed.now)) }
{
    told(matrix::cost(n, costs, listed))
}

// The plain engine, for sides to 8.
#[unsafe(no_mangle)]
pub extern "C" fn bristlefrost_plain(n: usize, costs: &[i32], cols: &mut [u32]) -> Totalled
    ensures { ◌≡◌ {A = HandedColumns} (record { totalled = result; cols = cols.new }) (handed_columns (plain n costs.now cols.old)) }
{
    told(plain::plain(n, costs, cols))
}

// What a C caller gets of the answer of the checker or of a repair, with any place.
fn told_checked(answer: Result<i64, Refusal>) -> Checked
    ensures { result ≡ checked_any (values_of answer) }
{
    match answer {
        Ok(total) => Checked {
            refusal: 0,
            total,
            slack: 0,
        },
        Err(refusal) => Checked {
            refusal: refusal.capped_code(),
            total: 0,
            slack: refusal.slack,
        },
    }
}

// The checker.
#[unsafe(no_mangle)]
pub extern "C" fn bristlefrost_check(
    n: usize,
    costs: &[i32],
    cols: &[u32],
    rows: &[u32],
    row_prices: &[i64],
    col_prices: &[i64],
) -> Checked
    ensures { result ≡ checked (values_of (check n costs.now cols.now rows.now row_prices.now col_prices.now)) }
{
    told_checked(checker::check(n, costs, cols, rows, row_prices, col_prices))
}

// The checker with bars.
#[unsafe(no_mangle)]
pub extern "C" fn bristlefrost_check_barred(
    n: usize,
    costs: &[i32],
    cols: &[u32],
    rows: &[u32],
    row_prices: &[i64],
    col_prices: &[i64],
    bars: &[u64],
) -> Checked
    ensures { result ≡ checked (values_of (check_barred n costs.now cols.now rows.now row_prices.now col_prices.now bars.now)) }
{
    told_checked(checker::check_barred(n, costs, cols, rows, row_prices, col_prices, bars))
}

// The checker of m rows and n columns.
#[unsafe(no_mangle)]
pub extern "C" fn bristlefrost_check_oblong(
    m: usize,
    n: usize,
    costs: &[i32],
    cols: &[u32],
    row_prices: &[i64],
    col_prices: &[i64],
) -> Checked
    ensures { result ≡ checked_any (values_of (check_oblong m n costs.now cols.now row_prices.now col_prices.now)) }
{
    told_checked(checker::check_oblong(m, n, costs, cols, row_prices, col_prices))
}

// What a C caller gets of the solver's answer.
fn told_solved(answer: Result<Sums, Refusal>) -> Solution
    requires { TellableSolved answer }
    ensures { result ≡ solution (solved_values answer) }
{
    match answer {
        Ok(Sums { total, counts }) => Solution {
            refusal: 0,
            total,
            free_rows: counts.free_rows as u64,
            looks_one: counts.looks_one as u64,
            left_one: counts.left_one as u64,
            looks_two: counts.looks_two as u64,
            rows_left: counts.rows_left as u64,
            columns_scanned: counts.columns_scanned as u64,
        },
        Err(refusal) => Solution {
            refusal: refusal.code(),
            total: 0,
            free_rows: 0,
            looks_one: 0,
            left_one: 0,
            looks_two: 0,
            rows_left: 0,
            columns_scanned: 0,
        },
    }
}

// The solver.
#[unsafe(no_mangle)]
pub extern "C" fn bristlefrost_solve(
    n: usize,
    costs: &[i32],
    cols: &mut [u32],
    rows: &mut [u32],
    row_prices: &mut [i64],
    col_prices: &mut [i64],
    indices: &mut [u32],
    numbers: &mut [i64],
) -> Solution
    ensures { ◌≡◌ {A = Handed} (record { solution = result; lent = lent_of cols.new rows.new row_prices.new col_prices.new indices.new numbers.new }) (handed (told_of (solve n costs.now (lent_of cols.old rows.old row_prices.old col_prices.old indices.old numbers.old)))) }
{
    told_solved(lapjv::solve(
        n, costs, cols, rows, row_prices, col_prices, indices, numbers,
    ))
}

// The repair of a paired night after the costs of `row` changed.
#[unsafe(no_mangle)]
pub extern "C" fn bristlefrost_repair(
    n: usize,
    costs: &[i32],
    row: usize,
    cols: &mut [u32],
    rows: &mut [u32],
    row_prices: &mut [i64],
    col_prices: &mut [i64],
    indices: &mut [u32],
    numbers: &mut [i64],
) -> Checked
    ensures { ◌≡◌ {A = HandedBack} (record { checked = result; lent = lent_of cols.new rows.new row_prices.new col_prices.new indices.new numbers.new }) (handed_back (repair n costs.now row (lent_of cols.old rows.old row_prices.old col_prices.old indices.old numbers.old))) }
{
    told_checked(repair::repair(
        n, costs, row, cols, rows, row_prices, col_prices, indices, numbers,
    ))
}

// What a C caller gets of an answer about a second pairing, with any place.
fn told_second(answer: Result<Pairings, Refusal>) -> Second
    ensures { result ≡ seconded_any (second_values answer) }
{
    match answer {
        Ok(Pairings { total, another }) => Second {
            refusal: 0,
            total,
            slack: 0,
            also: u64::from(another),
        },
        Err(refusal) => Second {
            refusal: refusal.capped_code(),
            total: 0,
            slack: refusal.slack,
            also: 0,
        },
    }
}

// Whether another pairing has the same total, and its columns in `list`.
#[unsafe(no_mangle)]
pub extern "C" fn bristlefrost_second(
    n: usize,
    costs: &[i32],
    cols: &[u32],
    rows: &[u32],
    row_prices: &[i64],
    col_prices: &[i64],
    list: &mut [u32],
    indices: &mut [u32],
    numbers: &mut [i64],
) -> Second
    ensures { ◌≡◌ {A = HandedSecond} (record { second = result; lent = three list.new indices.new numbers.new }) (handed_second (second_square n costs.now cols.now rows.now row_prices.now col_prices.now (three list.old indices.old numbers.old))) }
{
    told_second(swaps::second(
        n, costs, cols, rows, row_prices, col_prices, list, indices, numbers,
    ))
}

// The same with bars.
#[unsafe(no_mangle)]
pub extern "C" fn bristlefrost_second_barred(
    n: usize,
    costs: &[i32],
    cols: &[u32],
    rows: &[u32],
    row_prices: &[i64],
    col_prices: &[i64],
    bars: &[u64],
    list: &mut [u32],
    indices: &mut [u32],
    numbers: &mut [i64],
) -> Second
    ensures { ◌≡◌ {A = HandedSecond} (record { second = result; lent = three list.new indices.new numbers.new }) (handed_second (second_barred n costs.now cols.now rows.now row_prices.now col_prices.now bars.now (three list.old indices.old numbers.old))) }
{
    told_second(swaps::second_barred(
        n, costs, cols, rows, row_prices, col_prices, bars, list, indices, numbers,
    ))
}

// The same of m rows and n columns.
#[unsafe(no_mangle)]
pub extern "C" fn bristlefrost_second_oblong(
    m: usize,
    n: usize,
    costs: &[i32],
    cols: &[u32],
    row_prices: &[i64],
    col_prices: &[i64],
    list: &mut [u32],
    indices: &mut [u32],
    numbers: &mut [i64],
) -> Second
    ensures { ◌≡◌ {A = HandedSecond} (record { second = result; lent = three list.new indices.new numbers.new }) (handed_second_any (second_oblong m n costs.now cols.now row_prices.now col_prices.now (three list.old indices.old numbers.old))) }
{
    told_second(swaps::second_oblong(
        m, n, costs, cols, row_prices, col_prices, list, indices, numbers,
    ))
}

// A sheet's bytes, and the slip's room: 0, or number + 256*place.
#[unsafe(no_mangle)]
pub extern "C" fn bristlefrost_sheet(sheet: &[u8], slip: &mut [u8]) -> u64
    ensures { ◌≡◌ {A = Delivery} (record { number = result; slip = slip.new }) (pair sheet.now slip.old) }
{
    sheet::pair(sheet, slip)
}

// The score of two references.
#[unsafe(no_mangle)]
pub extern "C" fn bristlefrost_score(first: &[u8], second: &[u8]) -> Totalled
    ensures { result ≡ totalled (values_of (score first.now second.now)) }
{
    told(score::score(first, second))
}

// What a C caller gets of an audit.
fn told_audited(answer: Result<Confirmed, Refusal>) -> Audit
    requires { TellableAudited answer }
    ensures { result ≡ audit_told (audited_values answer) }
{
    match answer {
        Ok(Confirmed { side, total }) => Audit {
            refusal: 0,
            side: side as u64,
            total,
        },
        Err(refusal) => Audit {
            refusal: refusal.code(),
            side: 0,
            total: 0,
        },
    }
}

// A slip held against its sheet.
#[unsafe(no_mangle)]
pub extern "C" fn bristlefrost_audit(sheet: &[u8], slip: &[u8]) -> Audit
    ensures { result ≡ audit_told (audited_values (audit sheet.now slip.now)) }
{
    told_audited(audit::audit(sheet, slip))
}

// Two lists of references, and the room of the sheet of their scores: 0, or number + 256*place.
#[unsafe(no_mangle)]
pub extern "C" fn bristlefrost_score_sheet(firsts: &[u8], seconds: &[u8], sheet: &mut [u8]) -> u64
    ensures { ◌≡◌ {A = Filled} (record { number = result; sheet = sheet.new }) (score_sheet firsts.now seconds.now sheet.old) }
{
    score::score_sheet(firsts, seconds, sheet)
}

// A piece of a sheet, on a state that the caller keeps between the calls: 0, or 17, or 28 after the end.
#[unsafe(no_mangle)]
pub extern "C" fn bristlefrost_piece(
    bytes: &mut [u8; 65536],
    state: &mut [u64; 2],
    sent: &[u8],
) -> u64
    ensures { taken result (kept bytes.new state.new) ≡ piece sent.now (kept bytes.old state.old) }
{
    pieces::piece(bytes, state, sent)
}

// The end of a sheet in pieces, and the slip's room: what `bristlefrost_sheet` gives for the whole, or 28 after the end.
#[unsafe(no_mangle)]
pub extern "C" fn bristlefrost_end(
    bytes: &[u8; 65536],
    state: &mut [u64; 2],
    slip: &mut [u8],
) -> u64
    ensures { ending (delivered result slip.new) (kept bytes.now state.new) ≡ end slip.old (kept bytes.now state.old) }
{
    pieces::end(bytes, state, slip)
}

// Back to the fresh state: 0.
#[unsafe(no_mangle)]
pub extern "C" fn bristlefrost_reset(bytes: &[u8; 65536], state: &mut [u64; 2]) -> u64
    ensures { taken result (kept bytes.now state.new) ≡ reset (kept bytes.now state.old) }
{
    pieces::reset(bytes, state)
}
