// Bytes, texts and decimal numbers put into a lent line from a place on, and the number that a word is. A function that puts something
// answers where it ends; what the line has no room for is dropped.
#![tactic(auto)]

ghost use Rattle.std.specs.Prelude.{◌≡◌, [], ◌∷◌};
ghost use Rattle.spelling.specs.Number.{with_digit, number_of};
ghost use Rattle.spelling.specs.Line.{Puts, digits, pair, pairs};

// A byte.
pub fn put_byte(line: &mut [u8], at: usize, b: u8) -> usize
    ensures { Puts (b ∷ []) line.old at line.new result }
{
    if at < line.len() {
        line[at] = b;
        return at + 1;
    }
    at
}

// A text, from `at` on.
pub fn put_text(line: &mut [u8], at: usize, text: &[u8]) -> usize
    ensures { Puts text.now line.old at line.new result }
{
    let mut end = at;
    for b in text {
        end = put_byte(line, end, *b);
    }
    end
}

// A number's digits, the last `most` if it has more.
pub fn put_digits(line: &mut [u8], at: usize, n: u64, most: usize) -> usize
    ensures { Puts (digits most n) line.old at line.new result }
{
    if most == 0 {
        return at;
    }
    if n < 10 {
        return put_byte(line, at, b'0' + n as u8);
    }
    let end = put_digits(line, at, n / 10, most - 1);
    put_byte(line, end, b'0' + (n % 10) as u8)
}

// A word, and a number behind it; and two of these.
pub fn put_pair(line: &mut [u8], at: usize, word: &[u8], n: u64) -> usize
    ensures { Puts (pair word.now n) line.old at line.new result }
{
    let end = put_text(line, at, word);
    put_digits(line, end, n, 20)
}

pub fn put_pairs(line: &mut [u8], at: usize, first: &[u8], x: u64, second: &[u8], y: u64) -> usize
    ensures { Puts (pairs first.now x second.now y) line.old at line.new result }
{
    let end = put_pair(line, at, first, x);
    put_pair(line, end, second, y)
}

// A number with one digit more.
fn with_digit(value: usize, b: u8) -> Option<usize>
    ensures { result ≡ with_digit value b }
{
    if !b.is_ascii_digit() {
        return None;
    }
    let digit = (b - b'0') as usize;
    value.checked_mul(10)?.checked_add(digit)
}

// The number that a word of a command is: digits alone, and below 2^64.
pub fn parse(word: &[u8]) -> Option<usize>
    ensures { result ≡ number_of word.now }
{
    if word.is_empty() {
        return None;
    }
    let mut value = 0;
    for b in word {
        value = with_digit(value, *b)?;
    }
    Some(value)
}
