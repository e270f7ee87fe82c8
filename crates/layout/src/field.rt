// Fields of one width, one after the other: what a sheet and a slip list.
ghost use Rattle.std.specs.Prelude.{◌≡◌, refl, ℕ, ◌+◌, ◌*◌, ◌≤◌, List, length};
ghost use mathlib.Core.List.{flat_map};
ghost use lib.Seq.{sets};
ghost use Rattle.lists.specs.Parts.{part};
ghost use Rattle.layout.specs.Values.{bytes_of, value_of, signed_bytes, signed_value};
ghost use Rattle.layout.specs.Fields.{fields};

use crate::value::{bytes_at, put_bytes, value_at, write_value};

// What is listed: how the values of a type in code stand in bytes.
pub trait Field: Copy {
    ghost WIDTH: { ℕ };

    ghost decode: { List ℕ → Self };

    ghost encode: { Self → List ℕ };

    const WIDTH: usize;

    // The field at a place.
    fn read(bytes: &[u8], at: usize) -> Self
        requires { at + WIDTH ≤ length bytes.now }
        ensures { result ≡ decode (part at WIDTH bytes.now) };

    // Writes the field at a place.
    fn write(self, room: &mut [u8], at: usize)
        requires { at + WIDTH ≤ length room.old }
        ensures { room.new ≡ sets room.old at (encode self) };

    ghost size: { (x : Self) → length (encode x) ≡ WIDTH };
}

// An impl for each type by hand, since an impl that a macro writes is refused. A column, in two bytes.
impl Field for u32 {
    ghost WIDTH = { 2 };

    ghost decode = { value_of };

    ghost encode = { bytes_of 2 };

    const WIDTH: usize = 2;

    fn read(bytes: &[u8], at: usize) -> u32 {
        value_at(bytes, at, 2) as u32
    }

    fn write(self, room: &mut [u8], at: usize) {
        write_value(room, at, 2, self as usize);
    }

    ghost size = { λ x. unfold bytes_of in refl };
}

// A cost, in two's complement.
impl Field for i32 {
    ghost WIDTH = { 4 };

    ghost decode = { signed_value 4 };

    ghost encode = { signed_bytes 4 };

    const WIDTH: usize = 4;

    fn read(bytes: &[u8], at: usize) -> i32 {
        i32::from_le_bytes(bytes_at(bytes, at))
    }

    fn write(self, room: &mut [u8], at: usize) {
        put_bytes(room, at, self.to_le_bytes());
    }

    ghost size = { λ x. unfold bytes_of in refl };
}

// A price or a total, in two's complement.
impl Field for i64 {
    ghost WIDTH = { 8 };

    ghost decode = { signed_value 8 };

    ghost encode = { signed_bytes 8 };

    const WIDTH: usize = 8;

    fn read(bytes: &[u8], at: usize) -> i64 {
        i64::from_le_bytes(bytes_at(bytes, at))
    }

    fn write(self, room: &mut [u8], at: usize) {
        put_bytes(room, at, self.to_le_bytes());
    }

    ghost size = { λ x. unfold bytes_of in refl };
}

// A row's bars.
impl Field for u64 {
    ghost WIDTH = { 8 };

    ghost decode = { value_of };

    ghost encode = { bytes_of 8 };

    const WIDTH: usize = 8;

    fn read(bytes: &[u8], at: usize) -> u64 {
        u64::from_le_bytes(bytes_at(bytes, at))
    }

    fn write(self, room: &mut [u8], at: usize) {
        put_bytes(room, at, self.to_le_bytes());
    }

    ghost size = { λ x. unfold bytes_of in refl };
}

// Reads `count` fields, the first at `at`, into the front of a list.
pub fn read_fields<F: Field>(bytes: &[u8], at: usize, count: usize, list: &mut [F])
    requires { (at + count * F.WIDTH ≤ length bytes.now) × (count ≤ length list.old) }
    ensures { list.new ≡ sets list.old 0 (fields F.decode at F.WIDTH count bytes.now) }
{
    for i in 0..count {
        list[i] = F::read(bytes, at + i * F::WIDTH);
    }
}

// Writes the fields of a list from `at` on.
pub fn write_fields<F: Field>(room: &mut [u8], at: usize, list: &[F])
    requires { at + length list.now * F.WIDTH ≤ length room.old }
    ensures { room.new ≡ sets room.old at (flat_map F.encode list.now) }
{
    for (i, field) in list.iter().enumerate() {
        field.write(room, at + i * F::WIDTH);
    }
}
