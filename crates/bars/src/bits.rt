// A set of numbers below 64 as the bits of a u64. A type of its own is no plainer: the numbers lie in lent slices and arrays, and each use would wrap one.
ghost use Rattle.std.specs.Prelude.{◌≡◌, ◌<◌, ◌≤◌, ◌^◌, ◌-◌};
ghost use Rattle.std.specs.Int.Bits.{bit_or};
ghost use Rattle.lists.specs.Counts.{bit_of};
ghost use Rattle.bars.specs.Barred.{bits_above};

// Whether bit i is set.
pub fn has(bits: u64, i: usize) -> bool
    requires { i < 64 }
    ensures { result ≡ bit_of bits i }
{
    (bits >> i) & 1 == 1
}

// The bits, with bit i among them.
pub fn with_bit(bits: u64, i: usize) -> u64
    requires { i < 64 }
    ensures { result ≡ bit_or bits (2 ^ i) }
{
    bits | (1u64 << i)
}

// The n lowest bits. (A shift by 64 would be an error.)
pub fn full(n: usize) -> u64
    requires { n ≤ 64 }
    ensures { result ≡ 2 ^ n - 1 }
{
    if n == 64 { u64::MAX } else { (1u64 << n) - 1 }
}

// Whether a bit from n up is set.
pub(crate) fn has_from(bits: u64, n: usize) -> bool
    requires { n ≤ 64 }
    ensures { result ≡ bits_above n bits }
{
    full(n) < bits
}
