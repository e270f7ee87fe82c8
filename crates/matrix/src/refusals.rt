// Why an input is refused, and a refusal as one number.
ghost use Rattle.std.specs.Prelude.{◌≡◌, pos};
ghost use Rattle.matrix.specs.Refusals.{number, number_of, code_of, capped_code_of};
ghost use Rattle.matrix.specs.Asked.{Tellable};

// Why an input is refused: the scope's reasons, each with its number there.
#[derive(Clone, Copy, Debug, PartialEq, Eq)]
pub enum Reason {
    SideOver = 1,
    CostsLength = 2,
    ListLength = 3,
    RoomShort = 4,
    CostOutside = 5,
    ColumnOutside = 6,
    RowNotNamed = 7,
    PriceOutside = 8,
    PricesOverCost = 9,
    PricesNotCost = 10,
    NoMark = 11,
    EditionUnknown = 12,
    SheetSideOver = 13,
    DistanceWrong = 14,
    DistancePastBytes = 15,
    SlipRoomShort = 16,
    SheetOver = 17,
    ReferenceLength = 18,
    CharacterUnknown = 19,
    NoPairing = 20,
    NoteUnfit = 21,
    BarsPastSide = 22,
    RowsOver = 23,
    PriceFar = 24,
    SlipWrong = 25,
    BarredPair = 26,
    SpareBelow = 27,
    SheetEnded = 28,
}

impl Reason {
    // The scope's number.
    pub fn number(self) -> u64
        ensures { result ≡ number self }
    {
        self as u64
    }
}

// A refusal: its reason; its place, 0 where it names none; and the slack of that place, 0 where none was tested.
#[derive(Clone, Copy, Debug, PartialEq, Eq)]
pub struct Refusal {
    pub reason: Reason,
    pub place: usize,
    pub slack: i64,
}

impl Refusal {
    // A refusal with slack 0.
    pub fn new(reason: Reason, place: usize) -> Self
        ensures { result ≡ record { reason = reason; place = place; slack = pos 0 } }
    {
        Refusal {
            reason,
            place,
            slack: 0,
        }
    }

    // The scope's number of a refusal.
    pub fn number(self) -> u64
        ensures { result ≡ number_of self }
    {
        self.reason.number()
    }

    // A refusal as one number. Places are far below 2^48.
    pub fn code(self) -> u64
        requires { Tellable self }
        ensures { result ≡ code_of self }
    {
        self.number() + 256 * (self.place as u64)
    }

    // A refusal as one number, whatever its place.
    pub fn capped_code(self) -> u64
        ensures { result ≡ capped_code_of self }
    {
        let place = (self.place as u64).min(0xff_ffff_ffff_ffff);
        self.number() + 256 * place
    }
}
