// Reading a glyph integer: its sign, its digits and its range.
// Assumes that the place is in the message and the rows fit the table.
#![tactic(auto)]

ghost use Rattle.std.specs.Prelude.{◌≡◌, ◌+◌, ◌≤◌, ◌<◌, length};
ghost use Rattle.glyph.specs.Numbers.{in_range, word};
ghost use Rattle.glyph.specs.Read.{number_from, integer};
ghost use Rattle.glyph_item.specs.Contract.{Did};
ghost use Rattle.glyph_integers.specs.Signs.{Signed, Slots};

use glyph::Refusal;
use glyph_bytes::Digits;
use glyph_item::Step;

// Whether a number with this sign has 32 bits.
#[tactic(auto, unfolding(glyph::specs::Numbers::in_range))]
fn in_range(minus: bool, value: usize) -> bool
    ensures { result ≡ in_range minus value }
{
    if minus {
        value <= 2147483648
    } else {
        value <= 2147483647
    }
}

// Its 32 bits.
fn word_of(minus: bool, value: usize) -> u32
    requires { value ≤ 2147483648 }
    ensures { result ≡ word minus value }
{
    let word = value as u32;
    if minus { word.wrapping_neg() } else { word }
}

// The sign at a place, if one stands there.
#[derive(Clone, Copy, PartialEq, Eq, Debug)]
pub struct Sign {
    pub minus: bool,
    pub size: usize,
}

#[tactic(auto, unfolding(glyph::specs::Numbers::is_minus, glyph::specs::Numbers::signs))]
fn sign_of(b: u8) -> Sign
    ensures { Signed b result.minus result.size }
{
    match b {
        b'-' => Sign {
            minus: true,
            size: 1,
        },
        b'+' => Sign {
            minus: false,
            size: 1,
        },
        _ => Sign {
            minus: false,
            size: 0,
        },
    }
}

// The integer at `at` whose digits begin at `from`.
fn read_number(
    s: &[u8],
    at: usize,
    row: usize,
    minus: bool,
    from: usize,
    room: usize,
    table: &mut [u32],
) -> Step
    requires { (at < from) × (from ≤ length s.now) × Slots row room (length s.now) (length table.old) }
    ensures { Did (number_from s.now minus from at row) (length s.now) room (at + 1) row table.old table.new result }
{
    let Digits { end, value } = glyph_bytes::count(s, from);
    if s.len() <= end {
        return item::refuse(Refusal::Ended, at);
    }
    if end <= from || s[end] != b';' {
        return item::refuse(Refusal::UnexpectedByte, at);
    }
    if !in_range(minus, value) {
        return item::refuse(Refusal::OutOfRange, at);
    }
    let word = word_of(minus, value);
    Ok(item::put_leaf(row, end + 1, 4, word, 0, room, table))
}

// A letter, an optional sign, digits and `;`.
pub fn read_integer(s: &[u8], at: usize, row: usize, room: usize, table: &mut [u32]) -> Step
    requires { (at < length s.now) × Slots row room (length s.now) (length table.old) }
    ensures { Did (integer s.now at row) (length s.now) room (at + 1) row table.old table.new result }
{
    if s.len() <= at + 1 {
        return item::refuse(Refusal::Ended, at);
    }
    let sign = sign_of(s[at + 1]);
    read_number(s, at, row, sign.minus, at + 1 + sign.size, room, table)
}
