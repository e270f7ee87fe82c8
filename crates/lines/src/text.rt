// A text that is written piece by piece.
ghost use Rattle.std.specs.Prelude.{◌≡◌, [], ◌∷◌, ◌++◌, List, ℕ, ◌+◌, ◌≤◌, ◌<◌, length, take};

use std::marker::Model;

// At most 8,192 bytes: so many stand at the front of the room.
#[derive(Drop)]
pub struct Text {
    room: [u8; 8192],
    len: usize,
}

impl Model for Text {
    ghost Value = { List ℕ };

    ghost view = { λ t. take t.len t.room };

    ghost invariant = { λ t. t.len ≤ 8192 };
}

impl Text {
    ghost use Rattle.lines.specs.Decimal.{decimal, signed_decimal};
    ghost use Rattle.lines.specs.Put.{Put};

    // Nothing yet.
    pub fn new() -> Self
        ensures { result ≡ [] }
    {
        Text {
            room: [0; 8192],
            len: 0,
        }
    }

    // It is copied over the front of a room; how many bytes.
    pub fn copy_to(&self, out: &mut [u8]) -> usize
        requires { length self.now ≤ length out.old }
        ensures { Put out.old 0 self.now out.new result }
    {
        out[..self.len].copy_from_slice(&self.room[..self.len]);
        self.len
    }

    // A byte more.
    pub fn byte(&mut self, byte: u8)
        requires { length self.old < 8192 }
        ensures text { self.new ≡ self.old ++ byte ∷ [] }
        ensures long { length self.new ≡ length self.old + 1 }
    {
        self.room[self.len] = byte;
        self.len += 1;
    }

    // Bytes more.
    pub fn bytes(&mut self, bytes: &[u8])
        requires { length self.old + length bytes.now ≤ 8192 }
        ensures text { self.new ≡ self.old ++ bytes.now }
        ensures long { length self.new ≡ length self.old + length bytes.now }
    {
        let end = self.len + bytes.len();
        self.room[self.len..end].copy_from_slice(bytes);
        self.len = end;
    }

    // The digits of a number more. By hand: `write!` says what it writes where it ends in Ok, and no contract of std says that it does.
    #[tactic(auto, using(crate::proofs::Decimal::decimal_small, crate::proofs::Decimal::decimal_more, crate::proofs::Decimal::length_more, crate::proofs::Decimal::length_digit))]
    fn digits(&mut self, x: u64)
        requires { length self.old + length (decimal x) ≤ 8192 }
        ensures text { self.new ≡ self.old ++ decimal x }
        ensures long { length self.new ≡ length self.old + length (decimal x) }
    {
        if x < 10 {
            return self.byte(b'0' + (x % 10) as u8);
        }
        self.digits(x / 10);
        self.byte(b'0' + (x % 10) as u8);
    }

    // A number more, in decimal: at most 20 digits.
    #[tactic(auto, using(crate::proofs::Decimal::decimal_short))]
    pub fn decimal(&mut self, x: u64)
        requires { length self.old + 20 ≤ 8192 }
        ensures text { self.new ≡ self.old ++ decimal x }
        ensures short { length self.new ≤ length self.old + 20 }
    {
        self.digits(x);
    }

    // A signed number more, in decimal: a sign and at most 20 digits.
    pub fn signed(&mut self, z: i64)
        requires { length self.old + 21 ≤ 8192 }
        ensures text { self.new ≡ self.old ++ signed_decimal z }
        ensures short { length self.new ≤ length self.old + 21 }
    {
        if z < 0 {
            self.byte(b'-');
            return self.decimal(z.unsigned_abs());
        }
        self.decimal(z.unsigned_abs());
    }
}
