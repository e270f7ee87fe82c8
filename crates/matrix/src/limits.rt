// The limits, each beside its definition in specs/Limits.antt.
ghost use Rattle.std.specs.Prelude.{◌≡◌, ◌*◌, pos};
ghost use Rattle.matrix.specs.Limits.{side, sheet_side, K};

// The number once more, beside specs/Limits.antt: code cannot read a definition. The promise holds the two together.
pub fn side() -> usize
    ensures { result ≡ side }
{
    4096
}

// As `side`.
pub fn sheet_side() -> usize
    ensures { result ≡ sheet_side }
{
    64
}

// As `side`.
pub fn bound() -> i64
    ensures { result ≡ pos K }
{
    1000000000
}

// 10K.
pub fn price_bound() -> i64
    ensures { result ≡ pos (10 * K) }
{
    10 * bound()
}
