// The text check by itself, for measuring it.
#![tactic(auto)]

ghost use Rattle.std.specs.Prelude.{◌≡◌};
ghost use Rattle.text.specs.Utf8.{well_formed};

// Whether the bytes are well-formed UTF-8.
pub fn binmode_is_utf8(s: &[u8]) -> bool
    ensures { result ≡ well_formed s.now }
{
    text_check::is_utf8(s)
}
