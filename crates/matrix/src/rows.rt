// A row of costs as a part of the caller's matrix, and a reduced cost.
ghost use Rattle.std.specs.Prelude.{◌≡◌, ◌+◌, ◌*◌, ◌≤◌, ◌<◌, ◌-ℤ◌, length, take, drop};
ghost use Rattle.ints.specs.Parts.{Within};
ghost use Rattle.matrix.specs.Limits.{near};

// Row i of costs in n columns: the part from i*n of length n.
pub fn row_of(costs: &[i32], n: usize, i: usize) -> &[i32]
    requires { i * n + n ≤ length costs.now }
    ensures { result.now ≡ take n (drop (i * n) costs.now) }
{
    &costs[i * n..i * n + n]
}

// Row i of a square of costs.
pub fn row(costs: &[i32], n: usize, i: usize) -> &[i32]
    requires { (i < n) × (length costs.now ≡ n * n) }
    ensures { result.now ≡ take n (drop (i * n) costs.now) }
{
    row_of(costs, n, i)
}

// The crate's `reduced_cost`: cost minus column price.
pub fn reduced_cost(cost: i32, price: i64) -> i64
    requires { Within near price }
    ensures { result ≡ cost -ℤ price }
{
    i64::from(cost) - price
}
