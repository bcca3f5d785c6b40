// The text check by itself, for programs in C and Rust that measure it.
#![tactic(auto)]

ghost use Rattle.std.specs.Prelude.{◌≡◌};
ghost use Rattle.text.specs.Utf8.{well_formed};

// Whether the bytes are well-formed UTF-8.
#[unsafe(no_mangle)]
pub extern "C" fn binmode_is_utf8(s: &[u8]) -> bool
    ensures { result ≡ well_formed s.now }
{
    utf8::binmode_is_utf8(s)
}
