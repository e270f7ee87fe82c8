// What the rules hold and answer by value: the types that the definitions in specs/ share with the code above.
#![tactic(auto)]

// A value and where it stands: a reduced cost and its column, or a cost and its row. The order is by value, then place.
#[derive(Clone, Copy, Debug, PartialEq, Eq, PartialOrd, Ord)]
pub struct Low {
    pub value: i64,
    pub place: usize,
}

// Rule 1: the lowest, and the second where there is one.
#[derive(Clone, Copy, Debug, PartialEq, Eq)]
pub enum TwoLowest {
    One(Low),
    Two(Low, Low),
}

// Rule 4: the column that a row takes, that column's price from then on, and whether a displaced row goes back to `current`.
#[derive(Clone, Copy, Debug, PartialEq, Eq)]
pub struct Choice {
    pub column: usize,
    pub price: i64,
    pub back: bool,
}

// Rule 4: a pass under way. The next pass's list ends at `left`; the rows from `current` on are still to be looked at.
#[derive(Clone, Copy, Debug, PartialEq, Eq)]
pub struct Pass {
    pub current: usize,
    pub left: usize,
    pub looks: usize,
}

// Rule 5: the scan's lo and hi.
#[derive(Clone, Copy, Debug, PartialEq, Eq)]
pub struct Cursor {
    pub lo: usize,
    pub hi: usize,
}

// Rule 5: the free column that a search hands out, and how many columns it scanned.
#[derive(Clone, Copy, Debug, PartialEq, Eq)]
pub struct Reached {
    pub column: usize,
    pub scanned: usize,
}

// The six counts.
#[derive(Clone, Copy, Debug, PartialEq, Eq)]
pub struct Counts {
    pub free_rows: usize,
    pub looks_one: usize,
    pub left_one: usize,
    pub looks_two: usize,
    pub rows_left: usize,
    pub columns_scanned: usize,
}
