// Rule 1, the two lowest.
ghost use Rattle.std.specs.Prelude.{◌≡◌, ◌≤◌};
ghost use Rattle.rules.specs.declared.TwoLowest.TheVariants.{Two};
ghost use Rattle.rules.specs.Lowest.{beside, two_lowest};
ghost use Rattle.reduction.specs.Reduced.{width, reduced_at};

use crate::reduced::Reduced;
use rules::{Low, TwoLowest};

// A value that counts becomes second; or the old lowest becomes second and it lowest.
pub fn beside(lowest: Low, h: Low) -> (Low, Low)
    ensures { Two result.0 result.1 ≡ beside lowest h }
{
    if h.value < lowest.value {
        (h, lowest)
    } else {
        (lowest, h)
    }
}

// Rule 1: the two lowest reduced costs of a row. From column 2 on a value counts only if below the second; the columns between are passed over.
pub fn find_umins_plain(row: Reduced) -> TwoLowest
    requires { 1 ≤ width row }
    ensures { result ≡ two_lowest (width row.entry) (reduced_at row.entry) }
{
    let first = row.low_at(0);
    if row.width() == 1 {
        return TwoLowest::One(first);
    }
    let (mut lowest, mut second) = beside(first, row.low_at(1));
    let mut next = row.next_below(2, second.value);
    while let Some(j) = next {
        (lowest, second) = beside(lowest, row.low_at(j));
        next = row.next_below(j + 1, second.value);
    }
    TwoLowest::Two(lowest, second)
}
