// The bytes of glyph objects without children, put into a lent output from a place on, if they end at `most` at the latest. A function answers
// where they end, also where they were not put; all places past 65,536 are told as 65,537.
#![tactic(auto)]

ghost use Rattle.std.specs.Prelude.{◌≡◌, [], ◌∷◌, ◌++◌, ◌+◌, ◌-◌, ◌%◌, ◌≤◌, ◌<◌, length};
ghost use Rattle.glyph_form.specs.Form.{digits_before, number_before, integer_bytes, boolean_bytes, content_bytes};
ghost use Rattle.glyph_output.specs.Contract.{Open, Adds, four_digits};

// The most bytes that a message may have.
pub const MOST_BYTES: usize = 65536;

// As many bytes as their type says.
fn put<const N: usize>(out: &mut [u8], most: usize, at: usize, bytes: [u8; N]) -> usize
    requires { Open most (length out.old) at × (N ≤ 4) }
    ensures { Adds bytes.entry most out.old at out.new result }
{
    let stop = at + N;
    if stop <= most {
        out[at..stop].copy_from_slice(&bytes);
        return stop;
    }
    stop.min(MOST_BYTES + 1)
}

// A byte.
pub fn put_byte(out: &mut [u8], most: usize, at: usize, b: u8) -> usize
    requires { Open most (length out.old) at }
    ensures { Adds (b ∷ []) most out.old at out.new result }
{
    put(out, most, at, [b])
}

// Bytes as they are.
pub fn put_text(out: &mut [u8], most: usize, at: usize, t: &[u8]) -> usize
    requires { Open most (length out.old) at × (length t.now ≤ 65536) }
    ensures { Adds t.now most out.old at out.new result }
{
    let stop = at + t.len();
    if stop <= most {
        output::put_bytes(&mut out[at..], t);
        return stop;
    }
    stop.min(MOST_BYTES + 1)
}

// The last digit of a number.
fn digit(n: u32) -> u8
    ensures { result ≡ 48 + n % 10 }
{
    b'0' + (n % 10) as u8
}

// Four digits of a number below 10,000.
fn put_four(out: &mut [u8], most: usize, at: usize, n: u32) -> usize
    requires { Open most (length out.old) at × (n < 10000) }
    ensures { Adds (four_digits n) most out.old at out.new result }
{
    put(
        out,
        most,
        at,
        [digit(n / 1000), digit(n / 100), digit(n / 10), digit(n)],
    )
}

// A number below 10,000 without leading zeros.
fn put_few(out: &mut [u8], most: usize, at: usize, n: u32) -> usize
    requires { Open most (length out.old) at × (n < 10000) }
    ensures { Adds (digits_before 10 n []) most out.old at out.new result }
{
    match n {
        0..=9 => put(out, most, at, [digit(n)]),
        10..=99 => put(out, most, at, [digit(n / 10), digit(n)]),
        100..=999 => put(out, most, at, [digit(n / 100), digit(n / 10), digit(n)]),
        _ => put_four(out, most, at, n),
    }
}

// One below 100,000,000.
fn put_some(out: &mut [u8], most: usize, at: usize, n: u32) -> usize
    requires { Open most (length out.old) at × (n < 100000000) }
    ensures { Adds (digits_before 10 n []) most out.old at out.new result }
{
    if n < 10000 {
        return put_few(out, most, at, n);
    }
    let next = put_few(out, most, at, n / 10000);
    put_four(out, most, next, n % 10000)
}

// Any number, four digits at a time.
fn put_digits(out: &mut [u8], most: usize, at: usize, n: u32) -> usize
    requires { Open most (length out.old) at }
    ensures { Adds (digits_before 10 n []) most out.old at out.new result }
{
    if n < 10000 {
        return put_few(out, most, at, n);
    }
    let next = put_some(out, most, at, n / 10000);
    put_four(out, most, next, n % 10000)
}

// A number without leading zeros, and the byte behind it.
fn put_number(out: &mut [u8], most: usize, at: usize, n: u32, b: u8) -> usize
    requires { Open most (length out.old) at }
    ensures { Adds (number_before n (b ∷ [])) most out.old at out.new result }
{
    let last = put_digits(out, most, at, n);
    put_byte(out, most, last, b)
}

// A letter and `;`.
pub fn put_single(out: &mut [u8], most: usize, at: usize, letter: u8) -> usize
    requires { Open most (length out.old) at }
    ensures { Adds (letter ∷ 59 ∷ []) most out.old at out.new result }
{
    put(out, most, at, [letter, b';'])
}

// A minus and the number of a negative integer, by its 32 bits.
fn put_negative(out: &mut [u8], most: usize, at: usize, n: u32) -> usize
    requires { Open most (length out.old) at × (2147483648 ≤ n) }
    ensures { Adds (45 ∷ number_before (4294967296 - n) (59 ∷ [])) most out.old at out.new result }
{
    let next = put_byte(out, most, at, b'-');
    put_number(out, most, next, (4294967296 - n as u64) as u32, b';')
}

// An integer, by its 32 bits.
pub fn put_integer(out: &mut [u8], most: usize, at: usize, n: u32) -> usize
    requires { Open most (length out.old) at }
    ensures { Adds (integer_bytes n) most out.old at out.new result }
{
    let next = put_byte(out, most, at, b'i');
    if n < 2147483648 {
        return put_number(out, most, next, n, b';');
    }
    put_negative(out, most, next, n)
}

// T, or F for 0.
pub fn put_boolean(out: &mut [u8], most: usize, at: usize, n: u32) -> usize
    requires { Open most (length out.old) at }
    ensures { Adds (boolean_bytes n) most out.old at out.new result }
{
    if n == 0 {
        put_single(out, most, at, b'F')
    } else {
        put_single(out, most, at, b'T')
    }
}

// Bytes and `;`.
fn put_ended(out: &mut [u8], most: usize, at: usize, t: &[u8]) -> usize
    requires { Open most (length out.old) at × (length t.now ≤ 65536) }
    ensures { Adds (t.now ++ (59 ∷ [])) most out.old at out.new result }
{
    let last = put_text(out, most, at, t);
    put_byte(out, most, last, b';')
}

// Bytes with their number before them, and `;`.
fn put_counted(out: &mut [u8], most: usize, at: usize, t: &[u8]) -> usize
    requires { Open most (length out.old) at × (length t.now ≤ 65536) }
    ensures { Adds (number_before (length t.now) (58 ∷ (t.now ++ (59 ∷ [])))) most out.old at out.new result }
{
    let start = put_number(out, most, at, t.len() as u32, b':');
    put_ended(out, most, start, t)
}

// A unicode or a bytearray, by its letter: an empty one has no length.
pub fn put_content(out: &mut [u8], most: usize, at: usize, letter: u8, t: &[u8]) -> usize
    requires { Open most (length out.old) at × (length t.now ≤ 65536) }
    ensures { Adds (letter ∷ content_bytes t.now) most out.old at out.new result }
{
    if t.is_empty() {
        return put_single(out, most, at, letter);
    }
    let next = put_byte(out, most, at, letter);
    put_counted(out, most, next, t)
}
