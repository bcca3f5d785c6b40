// The bytes of a glyph message: what a byte begins, and the blanks and digits at a place.
#![tactic(auto)]

ghost use Rattle.std.specs.Prelude.{◌≡◌, ◌+◌, ◌*◌, ◌≤◌, ◌<◌, min, eqb, length, get_or};
ghost use Rattle.glyph.specs.Letters.{letter_of, wanted, many_kind, keyed_by, three_kind, name_want, attributes_want};
ghost use Rattle.glyph.specs.Numbers.{is_blank};
ghost use Rattle.glyph_bytes.specs.Places.{Skipped, Stands, Open, Counted};
ghost use Rattle.glyph_bytes.specs.Leafs.{LeafAt};

use glyph::{Edition, Leaf, Letter, Many, Three, Want};

#[tactic(auto, unfolding(glyph::specs::Letters::letter_of))]
fn letter_of(edition: Edition, b: u8) -> Letter
    ensures { result ≡ letter_of edition b }
{
    match b {
        b'i' => Letter::Leaf(Leaf::Integer),
        b'u' => Letter::Leaf(Leaf::Unicode),
        b'b' => Letter::Leaf(Leaf::Bytes),
        b'T' => Letter::Leaf(Leaf::True),
        b'F' => Letter::Leaf(Leaf::False),
        b'N' => Letter::Leaf(Leaf::Nil),
        b'L' => Letter::Many(Many::List),
        b'D' => Letter::Many(Many::Dict),
        b'O' => Letter::Many(Many::Ordered),
        b'X' => match edition {
            Edition::New => Letter::Three(Three::Extension),
            Edition::Old => Letter::Three(Three::Node),
        },
        b'H' => match edition {
            Edition::New => Letter::Unknown,
            Edition::Old => Letter::Three(Three::Extension),
        },
        _ => Letter::Unknown,
    }
}

fn in_place(want: Want, letter: Letter) -> Letter
    ensures { result ≡ wanted want letter }
{
    match (want, letter) {
        (Want::Any, _)
        | (Want::Text, Letter::Leaf(Leaf::Unicode))
        | (Want::EitherDict, Letter::Many(Many::Dict | Many::Ordered)) => letter,
        _ => Letter::Unknown,
    }
}

// What a byte begins, where it may stand.
pub fn letter_for(edition: Edition, want: Want, b: u8) -> Letter
    ensures { result ≡ wanted want (letter_of edition b) }
{
    in_place(want, letter_of(edition, b))
}

// An object without children begins there.
#[tactic(auto, using(crate::proofs::Leafs::leafs))]
pub fn leaf_at(s: &[u8], at: usize) -> bool
    ensures { LeafAt s.now at result }
{
    matches!(s.get(at), Some(b'i' | b'u' | b'b' | b'T' | b'F' | b'N'))
}

// A unicode begins there.
pub fn text_at(s: &[u8], at: usize) -> bool
    ensures { Stands s.now at (eqb (get_or s.now at 0) 117) result }
{
    s.get(at) == Some(&b'u')
}

pub fn many_kind(many: Many) -> u32
    ensures { result ≡ many_kind many }
{
    match many {
        Many::List => 9,
        Many::Dict => 10,
        Many::Ordered => 14,
    }
}

// Whether a container has keys.
pub fn is_keyed(many: Many) -> bool
    ensures { result ≡ keyed_by many }
{
    many != Many::List
}

pub fn three_kind(three: Three) -> u32
    ensures { result ≡ three_kind three }
{
    match three {
        Three::Extension => 15,
        Three::Node => 16,
    }
}

// What may stand as a name, and as attributes.
pub fn name_want(three: Three) -> Want
    ensures { result ≡ name_want three }
{
    match three {
        Three::Extension => Want::Text,
        Three::Node => Want::Any,
    }
}

pub fn attributes_want(three: Three) -> Want
    ensures { result ≡ attributes_want three }
{
    match three {
        Three::Extension => Want::EitherDict,
        Three::Node => Want::Any,
    }
}

// Stays: an arm for each, which becomes one test of a bit: with `matches!` a run of blanks takes longer to pass (docs/LOOK-BACK.md).
#[tactic(auto, unfolding(glyph::specs::Numbers::is_blank))]
fn is_blank(b: u8) -> bool
    ensures { result ≡ is_blank b }
{
    match b {
        b' ' => true,
        b'\t' => true,
        b'\x0b' => true,
        b'\r' => true,
        b'\n' => true,
        _ => false,
    }
}

// The place past the blanks at a place.
pub fn past_blanks(s: &[u8], at: usize) -> usize
    requires { at ≤ length s.now }
    ensures { Skipped s.now at result }
{
    for i in at..s.len() {
        if !is_blank(s[i]) {
            return i;
        }
    }
    s.len()
}

// No `;` stands there.
pub fn goes_on(s: &[u8], at: usize) -> bool
    ensures { Open s.now at result }
{
    s.get(at) != Some(&b';')
}

// Where digits end, and the number that they are.
#[derive(Clone, Copy, PartialEq, Eq, Debug)]
pub struct Digits {
    pub end: usize,
    pub value: usize,
}

// One digit more, cut.
fn onward(value: usize, more: u8) -> usize
    requires { value ≤ 2147483649 }
    ensures { result ≡ min (value * 10 + more) 2147483649 }
{
    (value * 10 + more as usize).min(2147483649)
}

// Stays: a `while`: with a `for` over the places an integer of many digits takes longer to read (docs/LOOK-BACK.md).
// The digits at a place, the number cut at 2,147,483,649, which is out of range for integers of both signs and past the end of any message.
pub fn count(s: &[u8], at: usize) -> Digits
    requires { at ≤ length s.now }
    ensures { Counted s.now at result.end result.value }
{
    let mut i = at;
    let mut value = 0;
    while i < s.len() && s[i].is_ascii_digit() {
        value = onward(value, s[i] - b'0');
        i += 1;
    }
    Digits { end: i, value }
}
