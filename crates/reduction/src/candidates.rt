// What is kept of each row, so that most looks read three columns and not the row.
//
// When a row is read its three lowest columns are kept, and the value of the fourth as their limit. In row reduction prices never rise, so
// reduced costs never fall, and every other column stays at the limit or above it. As long as the second of the three, at today's prices, is
// below the limit, it is below every other column: the two lowest of the three are the two lowest of the row, and no tie with another column
// can arise. Otherwise the row is read again. What is kept of one row does not depend on what is kept of another.
ghost use Rattle.std.specs.Prelude.{◌≡◌, ◌^◌, ◌≤◌, ◌<◌, length};
ghost use Rattle.lists.specs.Permutations.{table};
ghost use Rattle.reduction.specs.Reduced.{width, reduced_at};
ghost use Rattle.reduction.specs.Candidates.{FoundThree, start_three, insert, beside_two, first_two, settled, Recallable, recalled, unseen, Roomy, Keeps, Told};

use crate::lowest;
use crate::reduced::Reduced;
use rules::{Low, TwoLowest};

// The three lowest of a row, in order, and a limit that no other column is below.
#[derive(Clone, Copy)]
struct Three {
    first: Low,
    second: Low,
    third: Low,
    limit: i64,
}

// A mark in place of a limit: the row was looked at once in this pass, and nothing is kept of it. A number and no enum, since limits and marks lie
// in one list of numbers that the caller lends.
const SEEN: i64 = 4611686018427387904;

// The row was not looked at in this pass.
const UNSEEN: i64 = 4611686018427387905;

// Column 2, z, beside columns 0 and 1, of which x comes before y.
fn start(x: Low, y: Low, z: Low) -> Three
    ensures { result ≡ start_three x y z }
{
    let (first, second, third) = if y.value <= z.value {
        (x, y, z)
    } else if x.value <= z.value {
        (x, z, y)
    } else {
        (z, x, y)
    };
    Three {
        first,
        second,
        third,
        limit: i64::MAX,
    }
}

// A value below the limit, of a later column.
fn insert(three: Three, h: Low) -> Three
    ensures { result ≡ insert three h }
{
    let Three {
        first,
        second,
        third,
        ..
    } = three;
    if third.value <= h.value {
        return Three {
            limit: h.value,
            ..three
        };
    }
    let (first, second, third) = if second.value <= h.value {
        (first, second, h)
    } else if first.value <= h.value {
        (first, h, second)
    } else {
        (h, first, second)
    };
    Three {
        first,
        second,
        third,
        limit: three.third.value,
    }
}

// The three lowest of a row that has three, and their limit. The columns that are not below the limit are passed over.
fn find_three(row: Reduced) -> Three
    requires { 3 ≤ width row }
    ensures { FoundThree (reduced_at row.entry) (width row.entry) result }
{
    let (lowest, second) = lowest::beside(row.low_at(0), row.low_at(1));
    let mut three = start(lowest, second, row.low_at(2));
    let mut next = row.next_below(3, three.limit);
    while let Some(j) = next {
        three = insert(three, row.low_at(j));
        next = row.next_below(j + 1, three.limit);
    }
    three
}

// The first two of x, y and z, where x comes before y.
fn beside_two(x: Low, y: Low, z: Low) -> TwoLowest
    ensures { result ≡ beside_two x y z }
{
    if y <= z {
        TwoLowest::Two(x, y)
    } else if x <= z {
        TwoLowest::Two(x, z)
    } else {
        TwoLowest::Two(z, x)
    }
}

// The first two of three.
fn first_two(x: Low, y: Low, z: Low) -> TwoLowest
    ensures { result ≡ first_two x y z }
{
    if y < x {
        beside_two(y, x, z)
    } else {
        beside_two(x, y, z)
    }
}

// Whether the second is below a limit.
fn settled(two: TwoLowest, limit: i64) -> bool
    ensures { result ≡ settled two limit }
{
    match two {
        TwoLowest::One(_) => false,
        TwoLowest::Two(_, b) => b.value < limit,
    }
}

// The first two, at these prices, of the columns kept of row i.
fn recall(row: Reduced, i: usize, kept: &[u32]) -> TwoLowest
    requires { Recallable (width row) i kept.now }
    ensures { result ≡ recalled (reduced_at row.entry) i kept.now }
{
    let p = kept[3 * i] as usize;
    let q = kept[3 * i + 1] as usize;
    let r = kept[3 * i + 2] as usize;
    first_two(row.low_at(p), row.low_at(q), row.low_at(r))
}

// Row i is read, and what is found is kept.
fn read(row: Reduced, i: usize, kept: &mut [u32], limits: &mut [i64]) -> TwoLowest
    requires { (3 ≤ width row) × Roomy (width row) kept.old limits.old × (i < width row) × (width row ≤ 2 ^ 32) }
    ensures { Told (reduced_at row.entry) (width row.entry) i kept.old limits.old kept.new limits.new result }
{
    let Three {
        first,
        second,
        third,
        limit,
    } = find_three(row);
    kept[3 * i] = first.place as u32;
    kept[3 * i + 1] = second.place as u32;
    kept[3 * i + 2] = third.place as u32;
    limits[i] = limit;
    TwoLowest::Two(first, second)
}

// Nothing is kept of any row.
pub fn forget(limits: &mut [i64])
    ensures { limits.new ≡ table (length limits.old) (λ k. unseen) }
{
    limits.fill(UNSEEN);
}

// The two lowest of row i. Its first look keeps nothing, since many rows are looked at once; a row under four columns has no fourth.
pub fn two_lowest(row: Reduced, i: usize, kept: &mut [u32], limits: &mut [i64]) -> TwoLowest
    requires { Roomy (width row) kept.old limits.old × (i < width row) × (width row ≤ 2 ^ 32) × Keeps (reduced_at row) (width row) i kept.old limits.old }
    ensures { Told (reduced_at row.entry) (width row.entry) i kept.old limits.old kept.new limits.new result }
{
    if row.width() < 4 {
        return lowest::find_umins_plain(row);
    }
    let limit = limits[i];
    if limit == UNSEEN {
        limits[i] = SEEN;
        return lowest::find_umins_plain(row);
    }
    if limit < SEEN {
        let two = recall(row, i, kept);
        if settled(two, limit) {
            return two;
        }
    }
    read(row, i, kept, limits)
}
