// The characters of a reference.
ghost use Rattle.std.specs.Prelude.{◌≡◌, true};
ghost use Rattle.score.specs.Characters.{known, foreign};
ghost use Rattle.score.specs.Asked.{numbered};

// Whether a byte is none of the characters.
pub fn foreign(byte: u8) -> bool
    ensures { result ≡ foreign byte }
{
    !(byte.is_ascii_digit() || byte.is_ascii_uppercase())
}

// The number of a character, 0 to 35.
pub fn number(byte: u8) -> usize
    requires { known byte ≡ true }
    ensures { result ≡ numbered byte }
{
    usize::from(if byte <= b'9' {
        byte - b'0'
    } else {
        byte - b'A' + 10
    })
}
