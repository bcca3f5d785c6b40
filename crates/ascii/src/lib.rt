// Bytes below 128: whether one is, and whether all are. Assumes nothing.
#![tactic(auto)]

ghost use Rattle.std.specs.Prelude.{◌≡◌, ltb};
ghost use Rattle.text.specs.Texts.{ascii};

// Whether a byte is below 128: a character by itself.
pub fn is_single(b: u8) -> bool
    ensures { result ≡ ltb b 128 }
{
    b.is_ascii()
}

// Whether every byte is below 128.
pub fn is_ascii(s: &[u8]) -> bool
    ensures { result ≡ ascii s.now }
{
    s.iter().all(|b| *b < 128)
}
