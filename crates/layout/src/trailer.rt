// The trailer, its parts read and the whole written. Each part keeps its name: a place and a width in its stead would be no plainer.
ghost use Rattle.std.specs.Prelude.{◌≡◌, ◌+◌, ◌^◌, ◌<◌, ◌≤◌, length};
ghost use lib.Seq.{sets};
ghost use Rattle.layout.specs.Values.{bytes_of};
ghost use Rattle.layout.specs.Trailers.{trailer, distance_of, side_of, edition_of, row_count_of, unmarked};

use crate::value::{value_at, write_value};

// The trailer's distance.
pub fn distance_of(bytes: &[u8]) -> usize
    requires { 12 ≤ length bytes.now }
    ensures { (result ≡ distance_of bytes.now) × (result < 256 ^ 4) }
{
    value_at(bytes, bytes.len() - 12, 4)
}

// The trailer's side.
pub fn side_of(bytes: &[u8]) -> usize
    requires { 12 ≤ length bytes.now }
    ensures { (result ≡ side_of bytes.now) × (result < 256 ^ 2) }
{
    value_at(bytes, bytes.len() - 8, 2)
}

// The trailer's edition.
pub fn edition_of(bytes: &[u8]) -> usize
    requires { 12 ≤ length bytes.now }
    ensures { result ≡ edition_of bytes.now }
{
    value_at(bytes, bytes.len() - 6, 2)
}

// The two bytes before the trailer, as the row count.
pub fn row_count_of(bytes: &[u8]) -> usize
    requires { 14 ≤ length bytes.now }
    ensures { (result ≡ row_count_of bytes.now) × (result < 256 ^ 2) }
{
    value_at(bytes, bytes.len() - 14, 2)
}

// Whether there are under 12 bytes, or another mark.
pub fn unmarked(bytes: &[u8], mark: usize) -> bool
    ensures { result ≡ unmarked mark bytes.now }
{
    bytes.len() < 12 || value_at(bytes, bytes.len() - 4, 4) != mark
}

// Writes a trailer at `at`, its mark the lowest byte first.
pub fn write_trailer(
    room: &mut [u8],
    at: usize,
    distance: usize,
    side: usize,
    edition: usize,
    mark: usize,
)
    requires { at + 12 ≤ length room.old }
    ensures { room.new ≡ sets room.old at (trailer distance side edition (bytes_of 4 mark)) }
{
    write_value(room, at, 4, distance);
    write_value(room, at + 4, 2, side);
    write_value(room, at + 6, 2, edition);
    write_value(room, at + 8, 4, mark);
}
