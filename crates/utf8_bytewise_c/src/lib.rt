// The byte by byte text check by itself, for programs in C and Rust that measure it.
#![tactic(auto)]

ghost use Rattle.std.specs.Prelude.{◌≡◌};
ghost use Rattle.text.specs.Utf8.{well_formed};

// Whether the bytes are well-formed UTF-8.
#[unsafe(no_mangle)]
pub extern "C" fn binmode_is_utf8_bytewise(s: &[u8]) -> bool
    ensures { result ≡ well_formed s.now }
{
    utf8_bytewise::binmode_is_utf8_bytewise(s)
}
