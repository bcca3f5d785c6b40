// A decimal: its digits as a whole number, divided once by a power of ten, then negated if the sign is minus.
#![tactic(auto)]

ghost use Rattle.std.specs.Prelude.{◌≡◌, true, ◌-◌, ◌^◌, ◌≤◌, ◌<◌, length};
ghost use Rattle.lexical.specs.Digits.{digit, digit_value};
ghost use Rattle.decimal.specs.Digits.{nonzero, digits_of, Counting, places as places_of, negative};
ghost use Rattle.decimal.specs.Decimal.{power as powerOf, quotient as quotient_of, signed as signedBy, gathered, decimal_of};

// A text has more than 15 digits after leading zeros are dropped, or more than 22 after the point.
#[derive(Clone, Copy, Debug, PartialEq, Eq)]
pub struct TooManyDigits;

// The powers of ten up to 22, each a value of f64.
const POWERS: [f64; 23] = [
    1.0,
    10.0,
    100.0,
    1000.0,
    10000.0,
    100000.0,
    1000000.0,
    10000000.0,
    100000000.0,
    1000000000.0,
    10000000000.0,
    100000000000.0,
    1000000000000.0,
    10000000000000.0,
    100000000000000.0,
    1000000000000000.0,
    10000000000000000.0,
    100000000000000000.0,
    1000000000000000000.0,
    10000000000000000000.0,
    100000000000000000000.0,
    1000000000000000000000.0,
    10000000000000000000000.0,
];

fn power(k: usize) -> f64
    requires { k ≤ 22 }
    ensures { result ≡ powerOf k }
{
    POWERS[k]
}

// A whole number that f64 holds, divided once by a power of ten.
fn quotient(n: u64, k: usize) -> f64
    requires { (n < 10 ^ 15) × (k ≤ 22) }
    ensures { result ≡ quotient_of n k }
{
    n as f64 / power(k)
}

// Negated if the sign is minus: a zero's sign too.
fn signed(minus: bool, x: f64) -> f64
    ensures { result ≡ signedBy minus x }
{
    if minus { -x } else { x }
}

// Whether the sign is minus.
fn is_negative(s: &[u8]) -> bool
    ensures { result ≡ negative s.now }
{
    s.first() == Some(&b'-')
}

// How many bytes stand after the point.
fn places(s: &[u8]) -> usize
    ensures { result ≡ places_of s.now }
{
    for (i, b) in s.iter().enumerate() {
        if *b == b'.' {
            return s.len() - (i + 1);
        }
    }
    0
}

// Whether a byte is one of `1` to `9`.
fn is_nonzero(b: u8) -> bool
    ensures { result ≡ nonzero b }
{
    (b'1' <= b) & (b <= b'9')
}

// The place of the first digit that is no leading zero.
fn past_zeros(s: &[u8]) -> usize
    ensures counting { Counting s.now result }
    ensures within { result ≤ length s.now }
{
    for (i, b) in s.iter().enumerate() {
        if is_nonzero(*b) {
            return i;
        }
    }
    s.len()
}

// The most digits that are gathered.
const MOST: usize = 15;

// What a digit counts.
fn digit_value(b: u8) -> u64
    requires { digit b ≡ true }
    ensures { (result ≡ digit_value b) × (result ≤ 9) }
{
    (b - b'0') as u64
}

// The digits of a text as a whole number, if there are no more than 15.
fn gather(s: &[u8]) -> Option<u64>
    ensures { result ≡ gathered (digits_of s.now) }
{
    let mut number: u64 = 0;
    let mut count: usize = 0;
    for b in s {
        if digits::is_digit(*b) {
            if count == MOST {
                return None;
            }
            number = 10 * number + digit_value(*b);
            count += 1;
        }
    }
    Some(number)
}

pub fn decimal_of(s: &[u8]) -> Result<f64, TooManyDigits>
    ensures { result ≡ decimal_of s.now }
{
    let k = places(s);
    if 22 < k {
        return Err(TooManyDigits);
    }
    let n = gather(&s[past_zeros(s)..]).ok_or(TooManyDigits)?;
    Ok(signed(is_negative(s), quotient(n, k)))
}
