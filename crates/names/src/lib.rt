// Equal texts, and the names of the standard types. Assumes nothing.
#![tactic(auto)]

ghost use Rattle.std.specs.Prelude.{◌≡◌, ◌≤◌, length};
ghost use Rattle.text.specs.Texts.{same, standard_name};

use eights::word_at;

// Stays: `a == b` took 1.5 s where this took 1.2 s, for a hundred million pairs of 8 to 15 bytes.
// Whether two texts of equal length, eight bytes at least, have equal bytes. Eight are compared as one number, and the last eight again.
fn equal_long(a: &[u8], b: &[u8]) -> bool
    requires { (length a.now ≡ length b.now) × (8 ≤ length a.now) }
    ensures { result ≡ same a.now b.now }
{
    let mut k = 0;
    while 8 <= a.len() - k {
        if word_at(a, k) != word_at(b, k) {
            return false;
        }
        k += 8;
    }
    let last = a.len() - 8;
    word_at(a, last) == word_at(b, last)
}

// Whether two texts have equal bytes.
pub fn equal(a: &[u8], b: &[u8]) -> bool
    ensures { result ≡ same a.now b.now }
{
    if a.len() != b.len() {
        return false;
    }
    if 8 <= a.len() {
        return equal_long(a, b);
    }
    a == b
}

// Whether s is the name of a standard type.
pub fn is_standard_name(s: &[u8]) -> bool
    ensures { result ≡ standard_name s.now }
{
    equal(s, b"i4")
        | equal(s, b"int")
        | equal(s, b"boolean")
        | equal(s, b"string")
        | equal(s, b"double")
        | equal(s, b"dateTime.iso8601")
        | equal(s, b"base64")
        | equal(s, b"struct")
        | equal(s, b"array")
}
