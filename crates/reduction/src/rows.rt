// Rule 4, row reduction.
ghost use Rattle.std.specs.Prelude.{◌≡◌, ◌+◌, ◌<◌, ◌≤◌, length};
ghost use Rattle.ints.specs.Parts.{Within};
ghost use Rattle.lists.specs.Parts.{part};
ghost use Rattle.assignment.specs.Pairings.{signed_at, square};
ghost use Rattle.rules.specs.Rows.{keep_price, lower_price, choose, displace, is_early, look, row_reduction};
ghost use Rattle.matrix.specs.Limits.{side, near};
ghost use Rattle.reduction.specs.Ranges.{Near};
ghost use Rattle.reduction.specs.Columns.{stage_at};
ghost use Rattle.reduction.specs.Rows.{Inside, looks_most, placed_at, passing_at, Ready, Keeping, Passable};

use crate::candidates;
use crate::reduced::Reduced;
use rules::{Choice, Low, Pass, TwoLowest};

// Column j at the price that it has.
fn keep_price(v: &[i64], j: usize) -> Choice
    requires { j < length v.now }
    ensures { result ≡ keep_price v.now j }
{
    Choice {
        column: j,
        price: v[j],
        back: false,
    }
}

// The column of the lowest, at a price lowered by second minus lowest.
fn lower_price(v: &[i64], lowest: Low, second: Low) -> Choice
    requires { (lowest.place < length v.now) × Within near (signed_at v.now lowest.place) × Within (near + near) lowest.value × Within (near + near) second.value }
    ensures { result ≡ lower_price v.now lowest.place lowest.value second.value }
{
    Choice {
        column: lowest.place,
        price: v[lowest.place] - (second.value - lowest.value),
        back: true,
    }
}

// What a row takes, from its two lowest.
fn choose(n: usize, early: bool, v: &[i64], rows: &[u32], two: TwoLowest) -> Choice
    requires { (n ≤ side) × (length v.now ≡ n) × (length rows.now ≡ n) × Near n v.now × Inside n two }
    ensures { (result ≡ choose n early v.now rows.now two) × (result.column < n) }
{
    match two {
        TwoLowest::Two(a, b) if early && a.value < b.value => lower_price(v, a, b),
        TwoLowest::Two(a, b) if early && (rows[a.place] as usize) < n => keep_price(v, b.place),
        TwoLowest::One(a) | TwoLowest::Two(a, _) => keep_price(v, a.place),
    }
}

// Row i0 held the column; where i0 is n or more, none did.
fn displace(n: usize, frees: &mut [u32], pass: Pass, back: bool, i0: u32) -> Pass
    requires { (n ≤ side) × (length frees.old ≡ n) × (pass.current < n) × (pass.left ≤ pass.current) × (pass.looks < looks_most) }
    ensures { placed_at frees.new result ≡ displace n frees.old pass back i0 }
{
    let looks = pass.looks + 1;
    if n <= i0 as usize {
        Pass {
            current: pass.current + 1,
            looks,
            ..pass
        }
    } else if back {
        frees[pass.current] = i0;
        Pass { looks, ..pass }
    } else {
        frees[pass.left] = i0;
        Pass {
            current: pass.current + 1,
            left: pass.left + 1,
            looks,
        }
    }
}

// Whether the counter, raised by a look, is below `current`, raised by it too, times n.
fn is_early(n: usize, pass: Pass) -> bool
    requires { (n ≤ side) × (pass.current < n) × (pass.looks < looks_most) }
    ensures { result ≡ is_early n pass }
{
    pass.looks + 1 < (pass.current + 1) * n
}

// One look, at the free row at `current`. The free list stands at 0 in the room, what is kept of the rows at n.
fn look(
    n: usize,
    costs: &[i32],
    cols: &mut [u32],
    rows: &mut [u32],
    v: &mut [i64],
    room: &mut [u32],
    limits: &mut [i64],
    pass: Pass,
) -> Pass
    requires { Ready n costs.now (passing_at cols.old rows.old v.old (part 0 n room.old) pass) × Keeping n costs.now v.old room.old limits.old }
    ensures { (passing_at cols.new rows.new v.new (part 0 n room.new) result ≡ look n (square n costs.now).cost (passing_at cols.old rows.old v.old (part 0 n room.old) pass)) × Keeping n costs.now v.new room.new limits.new }
{
    let (frees, kept) = room.split_at_mut(n);
    let free_i = frees[pass.current] as usize;
    let row = Reduced {
        costs: matrix::rows::row(costs, n, free_i),
        prices: v,
    };
    let two = candidates::two_lowest(row, free_i, kept, limits);
    let Choice {
        column: j1,
        price,
        back,
    } = choose(n, is_early(n, pass), v, rows, two);
    let i0 = rows[j1];
    v[j1] = price;
    cols[free_i] = j1 as u32;
    rows[j1] = free_i as u32;
    displace(n, frees, pass, back, i0)
}

// Rule 4: a pass over the first `count` rows of the free list. The rows that are still free are the first `left` of it then. The rest of the
// room and the limits are the pass's own.
pub fn carr_dense(
    n: usize,
    costs: &[i32],
    cols: &mut [u32],
    rows: &mut [u32],
    v: &mut [i64],
    room: &mut [u32],
    limits: &mut [i64],
    count: usize,
) -> Pass
    requires { Passable n costs.now cols.old rows.old v.old (part 0 n room.old) count × (length room.old ≡ n + n + n + n) × (length limits.old ≡ n) }
    ensures { passing_at cols.new rows.new v.new (part 0 n room.new) result ≡ row_reduction n (square n costs.now).cost (stage_at cols.old rows.old v.old (part 0 n room.old) count) }
{
    candidates::forget(limits);
    let mut pass = Pass {
        current: 0,
        left: 0,
        looks: 0,
    };
    while pass.current < count {
        pass = look(n, costs, cols, rows, v, room, limits, pass);
    }
    pass
}
