// Whether bytes are a Double: an optional sign, one digit or more, a point, one digit or more.
#![tactic(auto)]

ghost use Rattle.std.specs.Prelude.{◌≡◌, ◌+◌, drop};
ghost use Rattle.lexical.specs.Double.{sign, is_double};
ghost use Rattle.double.specs.Runs.{sign_length, leading};

use digits::is_digit;

// Whether a byte is `+` or `-`.
fn is_sign(b: u8) -> bool
    ensures { result ≡ sign b }
{
    (b == b'+') | (b == b'-')
}

// How many bytes the sign takes: one, or none.
fn past_sign(s: &[u8]) -> usize
    ensures { result ≡ sign_length s.now }
{
    match s.first() {
        Some(b) if is_sign(*b) => 1,
        _ => 0,
    }
}

// Stays: `at + s.iter().skip(at).take_while(|b| is_digit(**b)).count()` is no plainer.
// The place after the digits that stand from `at` on.
fn past_digits(s: &[u8], at: usize) -> usize
    ensures { result ≡ at + leading (drop at s.now) }
{
    let mut i = at;
    while i < s.len() && is_digit(s[i]) {
        i += 1;
    }
    i
}

pub fn is_double(s: &[u8]) -> bool
    ensures { result ≡ is_double s.now }
{
    let start = past_sign(s);
    let point = past_digits(s, start);
    if point == start || s.len() <= point || s[point] != b'.' {
        return false;
    }
    let end = past_digits(s, point + 1);
    point + 1 < end && end == s.len()
}
