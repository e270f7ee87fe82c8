// The search for a second pairing, on lists of their sizes.
ghost use Rattle.std.specs.Prelude.{◌≡◌, ◌<◌, length};
ghost use Rattle.swaps.specs.Found.{CanSearch, SearchedBy, CanFindIn, FoundIn};

use crate::accepted::Accepted;
use crate::moves::move_rows;
use crate::start::{count_nodes, dearest, list_rows};

impl Accepted<'_> {
    // Of a night with at least one row: whether another pairing has the total of this one. Its columns are then written to the list.
    fn search(
        &self,
        list: &mut [u32],
        path: &mut [u32],
        marks: &mut [u32],
        choices: &mut [u32],
        prices: &mut [i64],
    ) -> bool
        requires some { 0 < self.now.m }
        requires list_size { length list.old ≡ self.now.m }
        requires path_size { length path.old ≡ self.now.n }
        requires marks_size { length marks.old ≡ self.now.n }
        requires choices_size { length choices.old ≡ self.now.n }
        requires prices_size { length prices.old ≡ self.now.n }
        ensures { SearchedBy self.now.m self.now.n self.now.costs.now self.now.bars.now self.now.cols.now self.now.us.now self.now.vs.now list.old result list.new }
    {
        let count = count_nodes(self.m, self.n);
        let path = &mut path[0..count];
        let marks = &mut marks[0..count];
        let choices = &mut choices[0..count];
        path.fill(0);
        marks.fill(0);
        choices.fill(0);
        lists::copy(&self.vs[0..self.n], prices);
        let Some((from, size)) = self.walk(path, marks, choices, prices) else {
            return false;
        };
        move_rows(self.m, self.cols, &path[from..size], choices, list);
        true
    }
}

// The same, with the four parts of a room: the row behind each column, the path, the marks, and the choices.
fn search(
    m: usize,
    n: usize,
    costs: &[i32],
    bars: &[u64],
    cols: &[u32],
    us: &[i64],
    vs: &[i64],
    list: &mut [u32],
    room: &mut [u32],
    prices: &mut [i64],
) -> bool
    requires { CanSearch m n costs.now bars.now cols.now us.now vs.now list.old room.old prices.old }
    ensures { SearchedBy m n costs.now bars.now cols.now us.now vs.now list.old result list.new }
{
    let (rows, rest) = room.split_at_mut(n);
    let (path, rest) = rest.split_at_mut(n);
    let (marks, choices) = rest.split_at_mut(n);
    list_rows(m, cols, rows);
    let top = dearest(m, cols, vs);
    let night = Accepted {
        m,
        n,
        costs,
        bars,
        cols,
        us,
        vs,
        rows,
        top,
    };
    night.search(list, path, marks, choices, prices)
}

// Whether another pairing has the total of this one: the search on lists that may be longer. A night without rows has only the one pairing. The rooms
// are cleared at the end.
pub fn find_second(
    m: usize,
    n: usize,
    costs: &[i32],
    bars: &[u64],
    cols: &[u32],
    us: &[i64],
    vs: &[i64],
    list: &mut [u32],
    indices: &mut [u32],
    numbers: &mut [i64],
) -> bool
    requires { CanFindIn m n costs.now bars.now cols.now us.now vs.now list.old indices.old numbers.old }
    ensures { FoundIn m n costs.now bars.now cols.now us.now vs.now list.old indices.old numbers.old result list.new indices.new numbers.new }
{
    let room = &mut indices[0..4 * n];
    let prices = &mut numbers[0..n];
    let another = 0 < m
        && search(
            m,
            n,
            costs,
            bars,
            &cols[0..m],
            us,
            vs,
            &mut list[0..m],
            room,
            prices,
        );
    room.fill(0);
    prices.fill(0);
    another
}
