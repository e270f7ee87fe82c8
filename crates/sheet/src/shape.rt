// What a sheet says of itself.
ghost use Rattle.std.specs.Prelude.{◌*◌, ◌≤◌};

use crate::reading;
use layout::edition::Edition;
use layout::slip::row_count_length;

// A sheet's edition, and so many rows and columns, the side.
#[derive(Clone, Copy)]
pub struct Shape {
    pub edition: Edition,
    pub row_count: usize,
    pub side: usize,
    pub ghost fewer: { row_count ≤ side },
    pub ghost small: { side ≤ 64 },
    pub ghost few: { row_count * side ≤ 4096 },
}

impl Shape {
    ghost use Rattle.std.specs.Prelude.{◌≡◌, ◌*◌, pos};
    ghost use Rattle.layout.specs.Editions.{number};
    ghost use Rattle.layout.specs.Slips.{slip_length};
    ghost use Rattle.sheet.specs.Reading.{distance_due, cost_most};

    // The distance that its edition wants.
    #[tactic(auto, unfolding(matrix::specs::Limits::sheet_side))]
    pub fn distance(self) -> usize
        ensures { result ≡ distance_due (number self.edition) self.row_count self.side }
    {
        reading::distance_due(self.edition.number(), self.row_count, self.side)
    }

    // The limit of its costs.
    pub fn cost_most(self) -> i64
        ensures { result ≡ pos (cost_most (number self.edition)) }
    {
        reading::cost_most(self.edition.number())
    }

    // How long its slip is.
    pub fn slip_length(self) -> usize
        ensures { result ≡ slip_length (number self.edition) self.row_count self.side }
    {
        let body = 10 * self.row_count + 8 * self.side + 8;
        body + row_count_length(self.edition.number()) + 12
    }
}
