// The second pairing from a closed walk: the columns copied, and then a store for each of the walk's rows, along the path.
ghost use Rattle.std.specs.Prelude.{◌≡◌, length};
ghost use Rattle.lists.specs.Runs.{upward};
ghost use Rattle.swaps.specs.Rooms.{move_at, CanMove};

// Each row of a path moves to the column that it has come to.
pub fn move_rows(m: usize, cols: &[u32], path: &[u32], choices: &[u32], second: &mut [u32])
    requires { CanMove m cols.now choices.now second.old }
    ensures { second.new ≡ upward 0 (length path.now) (move_at m path.now choices.now) cols.now }
{
    lists::copy(cols, second);
    for &node in path {
        let x = node as usize;
        if x < m {
            second[x] = choices[x];
        }
    }
}
