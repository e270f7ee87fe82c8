// The program's lines: from a sheet's bytes to the bytes that are written. What is promised is said in specs/.
#![tactic(auto)]

ghost use Rattle.std.specs.Prelude.{◌≡◌, [], ◌++◌, ◌+◌, ◌*◌, ◌≤◌, length};
ghost use Rattle.swaps.specs.Second.{also};
ghost use Rattle.swaps.specs.Found.{another, written_front};
ghost use Rattle.lines.specs.Put.{Put};
ghost use Rattle.lines.specs.Lines.{accepted_line, row_line, row_lines, spare_line, spare_lines, columns_text, second_line, refused_line, output, Printed, printed};
ghost use Rattle.lines.specs.Asked.{Rows, second_settled, pair_lines, settled_lines, Ready};

mod text;

use checker::choices::used;
use matrix::{Reason, Refusal};
use sheet::{Settled, Unpaired};
use swaps::search::find_second;
use text::Text;

// The line of a row, of at most 64 bytes.
#[tactic(auto, unfolding(crate::specs::Lines::row_line))]
fn put_row(text: &mut Text, row: usize, column: u32, cost: i32)
    requires { length text.old + 64 ≤ 8192 }
    ensures line { text.new ≡ text.old ++ row_line row column cost }
    ensures short { length text.new ≤ length text.old + 64 }
{
    text.decimal(row as u64);
    text.byte(b' ');
    text.decimal(u64::from(column));
    text.byte(b' ');
    text.signed(i64::from(cost));
    text.byte(b'\n');
}

// The lines of m rows, of a square of costs.
fn put_rows(text: &mut Text, m: usize, n: usize, costs: &[i32], cols: &[u32])
    requires { Rows m n costs.now cols.now × (length text.old + 64 * m ≤ 8192) }
    ensures lines { text.new ≡ text.old ++ row_lines n costs.now cols.now m }
    ensures short { length text.new ≤ length text.old + 64 * m }
{
    for i in 0..m {
        put_row(text, i, cols[i], costs[i * n + cols[i] as usize]);
    }
}

// The line of a spare column, of at most 27 bytes.
#[tactic(auto, unfolding(crate::specs::Lines::spare_line))]
fn put_spare(text: &mut Text, column: usize)
    requires { length text.old + 27 ≤ 8192 }
    ensures line { text.new ≡ text.old ++ spare_line column }
    ensures short { length text.new ≤ length text.old + 27 }
{
    text.bytes(b"spare ");
    text.decimal(column as u64);
    text.byte(b'\n');
}

// The lines of the spare ones among n columns, in rising order.
fn put_spares(text: &mut Text, m: usize, n: usize, cols: &[u32])
    requires { (m ≤ length cols.now) × (length text.old + 27 * n ≤ 8192) }
    ensures lines { text.new ≡ text.old ++ spare_lines m cols.now n }
    ensures short { length text.new ≤ length text.old + 27 * n }
{
    for j in 0..n {
        if !used(m, cols, j) {
            put_spare(text, j);
        }
    }
}

// The line of a sheet that is accepted, of at most 80 bytes.
#[tactic(auto, unfolding(crate::specs::Lines::accepted_line))]
fn put_total(text: &mut Text, side: usize, total: i64)
    requires { length text.old + 80 ≤ 8192 }
    ensures line { text.new ≡ text.old ++ accepted_line side total }
    ensures short { length text.new ≤ length text.old + 80 }
{
    text.bytes(b"accepted ");
    text.decimal(side as u64);
    text.bytes(b" total ");
    text.signed(total);
    text.byte(b'\n');
}

// The line of a refusal, of at most 80 bytes.
#[tactic(auto, unfolding(crate::specs::Lines::refused_line))]
fn put_refusal(text: &mut Text, refusal: Refusal)
    requires { length text.old + 80 ≤ 8192 }
    ensures line { text.new ≡ text.old ++ refused_line refusal }
    ensures short { length text.new ≤ length text.old + 80 }
{
    text.bytes(b"refused ");
    text.decimal(refusal.number());
    text.bytes(b" place ");
    text.decimal(refusal.place as u64);
    text.byte(b'\n');
}

// The line of a sheet that is accepted, at the front of a room; how many bytes it is.
pub fn put_accepted(out: &mut [u8], side: usize, total: i64) -> usize
    requires { 80 ≤ length out.old }
    ensures { Put out.old 0 (accepted_line side total) out.new result × (result ≤ 80) }
{
    let mut text = Text::new();
    put_total(&mut text, side, total);
    text.copy_to(out)
}

// The line of a refusal, at the front of a room; how many bytes it is.
pub fn put_refused(out: &mut [u8], refusal: Refusal) -> usize
    requires { 80 ≤ length out.old }
    ensures { Put out.old 0 (refused_line refusal) out.new result × (result ≤ 80) }
{
    let mut text = Text::new();
    put_refusal(&mut text, refusal);
    text.copy_to(out)
}

// Columns, each after a blank: of at most 21 bytes.
fn put_columns(text: &mut Text, cols: &[u32])
    requires { length text.old + 21 * length cols.now ≤ 8192 }
    ensures columns { text.new ≡ text.old ++ columns_text cols.now (length cols.now) }
    ensures short { length text.new ≤ length text.old + 21 * length cols.now }
{
    for column in cols {
        text.byte(b' ');
        text.decimal(u64::from(*column));
    }
}

// The last line, where there is another pairing: its columns.
fn put_also(text: &mut Text, cols: &[u32])
    requires { length text.old + 5 + 21 * length cols.now ≤ 8192 }
    ensures line { text.new ≡ text.old ++ second_line (also cols.now) }
    ensures short { length text.new ≤ length text.old + 5 + 21 * length cols.now }
{
    text.bytes(b"also");
    put_columns(text, cols);
    text.byte(b'\n');
}

// The lines of a night that is settled, but for the last.
fn put_pairs(text: &mut Text, settled: &Settled)
    requires { Ready settled.now × (text.old ≡ []) }
    ensures lines { text.new ≡ pair_lines settled.now }
    ensures short { length text.new ≤ 5904 }
{
    let m = settled.row_count;
    let n = settled.side;
    let cols = &settled.state.cols[..n];
    put_total(text, n, settled.total);
    put_rows(text, m, n, &settled.state.costs[..n * n], cols);
    put_spares(text, m, n, cols);
}

// Whether another pairing of the night has its total: its columns are listed.
fn another(settled: &Settled, list: &mut [u32; 64]) -> bool
    requires { Ready settled.now }
    ensures told { result ≡ another (second_settled settled.now) }
    ensures written { list.new ≡ written_front settled.now.row_count (second_settled settled.now) list.old }
{
    let m = settled.row_count;
    let n = settled.side;
    let state = &settled.state;
    let mut indices = [0u32; 256];
    let mut numbers = [0i64; 64];
    find_second(
        m,
        n,
        &state.costs[..m * n],
        &state.bars[..n],
        &state.cols[..n],
        &state.row_prices[..n],
        &state.col_prices[..n],
        list,
        &mut indices,
        &mut numbers,
    )
}

// The lines of a night that is settled.
fn put_night(text: &mut Text, settled: &Settled)
    requires { Ready settled.now × (text.old ≡ []) }
    ensures lines { text.new ≡ settled_lines settled.now }
    ensures short { length text.new ≤ 8192 }
{
    put_pairs(text, settled);
    let mut list = [0u32; 64];
    if another(settled, &mut list) {
        let cols: &[u32] = &list;
        return put_also(text, &cols[..settled.row_count]);
    }
    text.bytes(b"only\n");
}

// The program's whole output of a sheet. The slip's room is taken as edition 3's for 64 rows and columns, so that 16 does not arise.
fn put_sheet(text: &mut Text, sheet: &[u8])
    requires { text.old ≡ [] }
    ensures lines { text.new ≡ output sheet.now }
    ensures short { length text.new ≤ 8192 }
{
    match sheet::settle(sheet, 1174) {
        Ok(settled) => put_night(text, &settled),
        Err(Unpaired::Refused(refusal)) => put_refusal(text, refusal),
        Err(Unpaired::Blocked(_)) => put_refusal(text, Refusal::new(Reason::NoPairing, 0)),
    }
}

// The same, at the front of the room; how many bytes it is.
pub fn print(sheet: &[u8], out: &mut [u8; 8192]) -> usize
    ensures { ◌≡◌ {A = Printed} (record { count = result; room = out.new }) (printed sheet.now out.old) }
{
    let room: &mut [u8] = out;
    let mut text = Text::new();
    put_sheet(&mut text, sheet);
    text.copy_to(room)
}
