// The editions of sheets and slips.
ghost use Rattle.std.specs.Prelude.{◌≡◌};
ghost use Rattle.layout.specs.Editions.{number, Numbered};

// What a sheet holds beside its costs: nothing, bars, or how many rows it has.
#[derive(Clone, Copy, Debug, PartialEq, Eq)]
pub enum Edition {
    Square = 1,
    Barred = 2,
    Oblong = 3,
}

// A number that no edition has.
#[derive(Clone, Copy, Debug, PartialEq, Eq)]
pub struct Unknown;

impl Edition {
    // Its number.
    pub fn number(self) -> usize
        ensures { result ≡ number self }
    {
        self as usize
    }
}

impl TryFrom<usize> for Edition {
    type Error = Unknown;

    ghost try_from_gives = { Numbered };

    fn try_from(number: usize) -> Result<Edition, Unknown> {
        match number {
            1 => Ok(Edition::Square),
            2 => Ok(Edition::Barred),
            3 => Ok(Edition::Oblong),
            _ => Err(Unknown),
        }
    }
}
