// What a slip says, read beside its fields: its total.
ghost use Rattle.std.specs.Prelude.{◌≡◌, ◌≤◌, length};
ghost use Rattle.layout.specs.Slips.{body_length, slip_total};

use crate::field::Field;

// The total of a slip of m rows and n columns.
pub fn total_of(slip: &[u8], m: usize, n: usize) -> i64
    requires { body_length m n ≤ length slip.now }
    ensures { result ≡ slip_total m n slip.now }
{
    i64::read(slip, 10 * m + 8 * n)
}
