// Numbers as bytes, read and written.
ghost use Rattle.std.specs.Prelude.{◌≡◌, ◌+◌, ◌^◌, ◌<◌, ◌≤◌, length};
ghost use lib.Seq.{sets};
ghost use Rattle.lists.specs.Parts.{part};
ghost use Rattle.layout.specs.Values.{bytes_of, value_of};

// The N bytes from `at` on.
pub(crate) fn bytes_at<const N: usize>(bytes: &[u8], at: usize) -> [u8; N]
    requires { at + N ≤ length bytes.now }
    ensures { result ≡ part at N bytes.now }
{
    let mut these = [0; N];
    these.copy_from_slice(&bytes[at..at + N]);
    these
}

// Writes N bytes from `at` on.
pub(crate) fn put_bytes<const N: usize>(room: &mut [u8], at: usize, these: [u8; N])
    requires { at + N ≤ length room.old }
    ensures { room.new ≡ sets room.old at these.entry }
{
    room[at..at + N].copy_from_slice(&these);
}

// The number that `width` bytes from `at` on stand for.
pub fn value_at(bytes: &[u8], at: usize, width: usize) -> usize
    requires { (width ≤ 8) × (at + width ≤ length bytes.now) }
    ensures { (result ≡ value_of (part at width bytes.now)) × (result < 256 ^ width) }
{
    let mut eight = [0; 8];
    eight[..width].copy_from_slice(&bytes[at..at + width]);
    usize::from_le_bytes(eight)
}

// Writes the `width` lowest bytes of a number from `at` on. By hand, since any width is written, and `to_le_bytes` gives eight bytes.
pub fn write_value(room: &mut [u8], at: usize, width: usize, value: usize)
    requires { at + width ≤ length room.old }
    ensures { room.new ≡ sets room.old at (bytes_of width value) }
{
    let mut rest = value;
    for k in 0..width {
        room[at + k] = (rest % 256) as u8;
        rest /= 256;
    }
}
