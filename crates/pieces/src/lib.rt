// A sheet that arrives in pieces: they are kept in memory that the caller lends, and the end gives what the whole would have given.
#![tactic(auto)]

ghost use Rattle.std.specs.Prelude.{◌≡◌};
ghost use Rattle.pieces.specs.Kept.{kept, held_by};
ghost use Rattle.pieces.specs.Calls.{taken, piece, ending, delivered, end, reset};

use matrix::Reason;

// The marks, as specs/Kept.antt has them: code cannot read a definition. The promises hold the two together.
const OVER_MARK: u64 = 1;

const END_MARK: u64 = 2;

// What the numbers kept say: so many bytes have come and pieces are taken, or 17 was given, or the end was.
#[derive(Clone, Copy, Debug, PartialEq, Eq)]
pub enum Held {
    Taking(usize),
    Over,
    Ended,
}

// How the two numbers are read. The limit stands here once more, and in the types of the room for the sheet.
#[tactic(auto, unfolding(sheet::specs::Reading::sheet_most))]
fn read_state(came: u64, mark: u64) -> Held
    ensures { result ≡ held_by came mark }
{
    if 65536 < came {
        return Held::Over;
    }
    match mark {
        0 => Held::Taking(came as usize),
        END_MARK => Held::Ended,
        _ => Held::Over,
    }
}

// A piece: 0, or 17, or 28 after the end.
pub fn piece(bytes: &mut [u8; 65536], state: &mut [u64; 2], sent: &[u8]) -> u64
    ensures { taken result (kept bytes.new state.new) ≡ piece sent.now (kept bytes.old state.old) }
{
    match read_state(state[0], state[1]) {
        Held::Over => Reason::SheetOver.number(),
        Held::Ended => Reason::SheetEnded.number(),
        Held::Taking(came) => {
            if bytes.len() - came < sent.len() {
                state[1] = OVER_MARK;
                return Reason::SheetOver.number();
            }
            lists::copy(sent, &mut bytes[came..came + sent.len()]);
            state[0] = (came + sent.len()) as u64;
            0
        }
    }
}

// The end: what the whole would have given, or 17, or 28 after the end.
pub fn end(bytes: &[u8; 65536], state: &mut [u64; 2], slip: &mut [u8]) -> u64
    ensures { ending (delivered result slip.new) (kept bytes.now state.new) ≡ end slip.old (kept bytes.now state.old) }
{
    match read_state(state[0], state[1]) {
        Held::Over => Reason::SheetOver.number(),
        Held::Ended => Reason::SheetEnded.number(),
        Held::Taking(came) => {
            state[1] = END_MARK;
            sheet::pair(&bytes[..came], slip)
        }
    }
}

// A reset: 0, and the state is fresh.
pub fn reset(bytes: &[u8; 65536], state: &mut [u64; 2]) -> u64
    ensures { taken result (kept bytes.now state.new) ≡ reset (kept bytes.now state.old) }
{
    *state = [0, 0];
    0
}
