// A slip, written part by part.
ghost use Rattle.std.specs.Prelude.{◌≡◌, ◌+◌, ◌≤◌, length, drop};
ghost use mathlib.Core.List.{◌++◌};
ghost use lib.Seq.{sets};
ghost use Rattle.layout.specs.Slips.{slip_body, row_count, row_count_length, slip_of, slip_length};
ghost use Rattle.layout.specs.Asked.{Listed, Slipped};

use crate::field::{Field, write_fields};
use crate::trailer::write_trailer;
use crate::value::write_value;

// Writes what stands before a slip's trailer over the front of its room: m columns and row prices, n column prices, the total.
fn write_body(slip: &mut [u8], cols: &[u32], row_prices: &[i64], col_prices: &[i64], total: i64)
    requires { Listed cols.now row_prices.now col_prices.now slip.old }
    ensures { slip.new ≡ sets slip.old 0 (slip_body cols.now row_prices.now col_prices.now total) }
{
    let m = cols.len();
    let n = col_prices.len();
    write_fields(slip, 0, cols);
    write_fields(slip, 2 * m, row_prices);
    write_fields(slip, 10 * m, col_prices);
    total.write(slip, 10 * m + 8 * n);
}

// How many bytes an edition's row count takes.
pub fn row_count_length(edition: usize) -> usize
    ensures { result ≡ row_count_length edition }
{
    match edition {
        3 => 2,
        _ => 0,
    }
}

// Writes a row count at `at`, where the edition has one.
fn write_row_count(room: &mut [u8], at: usize, edition: usize, m: usize)
    requires { at + row_count_length edition ≤ length room.old }
    ensures { room.new ≡ sets room.old at (row_count edition m) }
{
    if edition == 3 {
        write_value(room, at, 2, m);
    }
}

// Writes a slip over the front of its room: as many rows as `cols` has, as many columns as `col_prices` has. Its mark is "SLIP", the lowest
// byte first.
pub fn write_slip(
    slip: &mut [u8],
    edition: usize,
    cols: &[u32],
    row_prices: &[i64],
    col_prices: &[i64],
    total: i64,
)
    requires { Slipped edition cols.now row_prices.now col_prices.now slip.old }
    ensures { slip.new ≡ slip_of edition (length cols.now) (length col_prices.now) cols.now row_prices.now col_prices.now total ++ drop (slip_length edition (length cols.now) (length col_prices.now)) slip.old }
{
    let m = cols.len();
    let n = col_prices.len();
    let body = 10 * m + 8 * n + 8;
    let distance = body + row_count_length(edition);
    write_body(slip, cols, row_prices, col_prices, total);
    write_row_count(slip, body, edition, m);
    write_trailer(slip, distance, distance, n, edition, 0x5049_4C53);
}
