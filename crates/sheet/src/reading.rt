// A sheet's tests.
ghost use Rattle.std.specs.Prelude.{◌≡◌, cond, ◌+◌, ◌*◌, ◌^◌, ◌≤◌, ◌<◌, pos, length};
ghost use Rattle.lists.specs.Runs.{Finds};
ghost use Rattle.layout.specs.Editions.{number, named};
ghost use Rattle.layout.specs.Trailers.{distance_of, edition_of};
ghost use Rattle.matrix.specs.Limits.{sheet_side};
ghost use Rattle.matrix.specs.Verdicts.{◌then◌};
ghost use Rattle.sheet.specs.Reading.{sheet_most, note_most, has_bars, rows_of, distance_due, cost_most, trailed, uncut, rows_fit, pointed, unprintable, unfit_at, unfit, note_fit, room_long, sheet_tests};
ghost use Rattle.sheet.specs.Asked.{Ended, Gives, Shaped};

use crate::shape::Shape;
use layout::edition::Edition;
use layout::slip::row_count_length;
use layout::trailer::{distance_of, edition_of, row_count_of, side_of, unmarked};
use matrix::limits::sheet_side;
use matrix::tests::{fails_at, fails_if};
use matrix::{Reason, Refusal};

// The number once more, beside specs/Reading.antt: code cannot read a definition. The promise holds the two together.
#[tactic(auto, unfolding(crate::specs::Reading::sheet_most))]
fn sheet_most() -> usize
    ensures { result ≡ sheet_most }
{
    65536
}

// As `sheet_most`.
#[tactic(auto, unfolding(crate::specs::Reading::note_most))]
fn note_most() -> usize
    ensures { result ≡ note_most }
{
    4096
}

// Tests 17, 11, 12, 13, and the edition. The mark is "MTCH", the lowest byte first.
#[tactic(auto, using(crate::proofs::Editions::known_here, crate::proofs::Editions::unnamed), unfolding(matrix::specs::Verdicts::fails_by, layout::specs::Values::value_of))]
fn trailed(sheet: &[u8]) -> Result<Edition, Refusal>
    ensures { result ≡ (trailed sheet.now then Ok (named (edition_of sheet.now))) }
{
    fails_if(sheet_most() < sheet.len(), Reason::SheetOver, 0)?;
    fails_if(unmarked(sheet, 0x4843_544D), Reason::NoMark, 0)?;
    let Ok(edition) = Edition::try_from(edition_of(sheet)) else {
        return Err(Refusal::new(Reason::EditionUnknown, 0));
    };
    fails_if(sheet_side() < side_of(sheet), Reason::SheetSideOver, 0)?;
    Ok(edition)
}

// How many rows a sheet has: as many as columns, or as its row count says.
pub fn rows_of(sheet: &[u8]) -> usize
    requires { Ended sheet.now }
    ensures { (result ≡ rows_of sheet.now) × (result < 256 ^ 2) }
{
    if edition_of(sheet) == 3 {
        return row_count_of(sheet);
    }
    side_of(sheet)
}

// What an edition's bars take, of n rows.
#[tactic(auto, using(matrix::proofs::SmallLimits::sheet_side_small))]
fn bars_length(edition: usize, n: usize) -> usize
    requires { n ≤ sheet_side }
    ensures { result ≡ cond (has_bars edition) (8 * n) 0 }
{
    if edition == 2 {
        return 8 * n;
    }
    0
}

// The distance that an edition wants.
pub fn distance_due(edition: usize, m: usize, n: usize) -> usize
    requires { (m ≤ n) × (n ≤ sheet_side) }
    ensures { result ≡ distance_due edition m n }
{
    4 * (m * n) + bars_length(edition, n) + row_count_length(edition)
}

// The limit of an edition's costs.
pub fn cost_most(edition: usize) -> i64
    ensures { result ≡ pos (cost_most edition) }
{
    if edition == 2 {
        return bars::tests::barred_most();
    }
    matrix::limits::bound()
}

// How many rows a sheet has, where there is room for a row count that its edition wants.
#[tactic(auto, unfolding(matrix::specs::Verdicts::fails_by))]
fn row_count(sheet: &[u8], edition: Edition) -> Result<usize, Refusal>
    requires { (12 ≤ length sheet.now) × (number edition ≡ edition_of sheet.now) }
    ensures { result ≡ (uncut sheet.now then Ok (rows_of sheet.now)) }
{
    let counted = edition == Edition::Oblong;
    fails_if(counted && sheet.len() < 14, Reason::RowsOver, 0)?;
    Ok(rows_of(sheet))
}

// Tests 17, 11, 12, 13, 23, and the shape.
fn shaped(sheet: &[u8]) -> Result<Shape, Refusal>
    ensures { Gives (trailed sheet.now then rows_fit sheet.now) (Shaped sheet.now) result }
{
    let edition = trailed(sheet)?;
    let row_count = row_count(sheet, edition)?;
    let side = side_of(sheet);
    fails_if(side < row_count, Reason::RowsOver, row_count)?;
    Ok(Shape {
        edition,
        row_count,
        side,
    })
}

// Tests 14, 15.
fn pointed(sheet: &[u8], shape: Shape) -> Result<(), Refusal>
    requires { Shaped sheet.now shape }
    ensures { result ≡ pointed sheet.now }
{
    let distance = distance_of(sheet);
    fails_if(distance != shape.distance(), Reason::DistanceWrong, 0)?;
    fails_if(sheet.len() - 12 < distance, Reason::DistancePastBytes, 0)
}

// Whether a byte is outside 32 to 126.
fn unprintable(byte: u8) -> bool
    ensures { result ≡ unprintable byte }
{
    byte < 32 || 126 < byte
}

// Whether no note goes on at position k, which holds this byte.
fn unfit(k: usize, byte: u8) -> bool
    ensures { result ≡ unfit_at k byte }
{
    note_most() <= k || unprintable(byte)
}

// Refusal 21: the first position of a note of so many bytes at which it does not go on.
fn first_unfit(sheet: &[u8], count: usize) -> Option<usize>
    requires { count ≤ length sheet.now }
    ensures { Finds count (unfit sheet.now) result }
{
    (0..count).find(|&k| unfit(k, sheet[k]))
}

// Test 21.
#[tactic(auto, using(matrix::proofs::Verdicts::found_fails))]
fn note_fit(sheet: &[u8]) -> Result<(), Refusal>
    requires { distance_of sheet.now + 12 ≤ length sheet.now }
    ensures { result ≡ note_fit sheet.now }
{
    let count = sheet.len() - 12 - distance_of(sheet);
    fails_at(first_unfit(sheet, count), Reason::NoteUnfit)
}

// Test 16.
fn room_long(shape: Shape, sheet: &[u8], room: usize) -> Result<(), Refusal>
    requires { Shaped sheet.now shape }
    ensures { result ≡ room_long room sheet.now }
{
    fails_if(room < shape.slip_length(), Reason::SlipRoomShort, 0)
}

// Tests 17, 11, 12, 13, 23, 14, 15, 21, 16, and the shape.
#[tactic(auto, unfolding(crate::specs::Reading::sheet_tests))]
pub fn tests(sheet: &[u8], room: usize) -> Result<Shape, Refusal>
    ensures { Gives (sheet_tests room sheet.now) (Shaped sheet.now) result }
{
    let shape = shaped(sheet)?;
    pointed(sheet, shape)?;
    note_fit(sheet)?;
    room_long(shape, sheet, room)?;
    Ok(shape)
}
