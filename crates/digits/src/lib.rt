// Digits as bytes: whether a byte is one, and what it counts.
#![tactic(auto)]

ghost use Rattle.std.specs.Prelude.{◌≡◌, ◌<◌};
ghost use Rattle.lexical.specs.Digits.{digit, digit_value};

// Whether a byte is one of `0` to `9`.
pub fn is_digit(b: u8) -> bool
    ensures { result ≡ digit b }
{
    b.is_ascii_digit()
}

// What a digit counts; 0 for a byte before `0`.
pub fn value_of(b: u8) -> usize
    ensures { (result ≡ digit_value b) × (result < 256) }
{
    usize::from(b.saturating_sub(b'0'))
}
