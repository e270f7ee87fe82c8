// Sheets and slips: a sheet is read, its night is solved, and the slip is written. What is promised is said in specs/.
#![tactic(auto)]

ghost use Rattle.std.specs.Prelude.{◌≡◌, ◌++◌, ◌≤◌, length, take, drop};
ghost use Rattle.layout.specs.Editions.{number};
ghost use Rattle.layout.specs.Slips.{slip_of, slip_length};
ghost use Rattle.sheet.specs.Settle.{settled, Delivery, pair};
ghost use Rattle.sheet.specs.Values.{settled_values};
ghost use Rattle.sheet.specs.declared.Unpaired.TheVariants.{Refused};

mod arrays;
pub mod reading;
pub mod shape;

use layout::edition::Edition;
use matrix::{Reason, Refusal};

// The arrays of a night of side up to 64, by value.
#[derive(Clone, Copy)]
pub struct State {
    pub costs: [i32; 4096],
    pub bars: [u64; 64],
    pub cols: [u32; 64],
    pub rows: [u32; 64],
    pub row_prices: [i64; 64],
    pub col_prices: [i64; 64],
    pub indices: [u32; 256],
    pub numbers: [i64; 64],
}

// A sheet settled: its edition, rows and side, the total, and the arrays in which its night was solved.
#[derive(Clone, Copy)]
pub struct Settled {
    pub edition: Edition,
    pub row_count: usize,
    pub side: usize,
    pub total: i64,
    pub state: State,
}

// Why a sheet is not: a refusal, or a set of rows that shows that there is no pairing.
#[derive(Clone, Copy, Debug, PartialEq, Eq)]
pub enum Unpaired {
    Refused(Refusal),
    Blocked(u64),
}

impl From<Refusal> for Unpaired {
    ghost from_gives = { λ refusal unpaired. unpaired ≡ Refused refusal };

    fn from(refusal: Refusal) -> Unpaired {
        Unpaired::Refused(refusal)
    }
}

// A sheet is read and its night solved, for a slip room of so many bytes.
pub fn settle(sheet: &[u8], room: usize) -> Result<Settled, Unpaired>
    ensures { settled_values result ≡ settled_values (settled room sheet.now) }
{
    let shape = reading::tests(sheet, room)?;
    let mut state = State::fresh();
    state.read(shape, sheet);
    let total = state.pair(shape)?;
    Ok(Settled {
        edition: shape.edition,
        row_count: shape.row_count,
        side: shape.side,
        total,
        state,
    })
}

// The slip of what is settled is written over the front of its room.
fn write(settled: &Settled, slip: &mut [u8])
    requires { (settled.now.row_count ≤ settled.now.side) × (settled.now.side ≤ 64) × (slip_length (number settled.now.edition) settled.now.row_count settled.now.side ≤ length slip.old) }
    ensures { slip.new ≡ slip_of (number settled.now.edition) settled.now.row_count settled.now.side (take settled.now.row_count settled.now.state.cols) (take settled.now.row_count settled.now.state.row_prices) (take settled.now.side settled.now.state.col_prices) settled.now.total ++ drop (slip_length (number settled.now.edition) settled.now.row_count settled.now.side) slip.old }
{
    let m = settled.row_count;
    let n = settled.side;
    let state = &settled.state;
    layout::slip::write_slip(
        slip,
        settled.edition.number(),
        &state.cols[..m],
        &state.row_prices[..m],
        &state.col_prices[..n],
        settled.total,
    );
}

// The entry: a sheet's slip is written over the front of its room; 0, or the refusal as number + 256*place. A 20 writes the rows that it
// shows, as 8 bytes.
pub fn pair(sheet: &[u8], slip: &mut [u8]) -> u64
    ensures { ◌≡◌ {A = Delivery} (record { number = result; slip = slip.new }) (pair sheet.now slip.old) }
{
    match settle(sheet, slip.len()) {
        Ok(settled) => {
            write(&settled, slip);
            0
        }
        Err(Unpaired::Refused(refusal)) => refusal.code(),
        Err(Unpaired::Blocked(rows)) => {
            layout::value::write_value(slip, 0, 8, rows as usize);
            Reason::NoPairing.number()
        }
    }
}
