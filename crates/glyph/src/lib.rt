// The declared types that the definitions in specs/ cite: hyperglyph 1.0 and its old depot's glyph 0.5, read into the rows of `draft`.
#![tactic(auto)]

ghost use Rattle.std.specs.Prelude.{◌≡◌};
ghost use Rattle.glyph.specs.Refusals.{number_of};

use draft::Refused;

// The caller names it: `New` is hyperglyph 1.0 (document 003), `Old` is glyph 0.5 (document 000).
#[derive(Clone, Copy, PartialEq, Eq, Debug)]
pub enum Edition {
    New,
    Old,
}

// The objects without children.
#[derive(Clone, Copy, PartialEq, Eq, Debug)]
pub enum Leaf {
    Integer,
    Unicode,
    Bytes,
    True,
    False,
    Nil,
}

// The objects that hold others until their `;`.
#[derive(Clone, Copy, PartialEq, Eq, Debug)]
pub enum Many {
    List,
    Dict,
    Ordered,
}

// The objects that hold three others: a name, attributes and content.
#[derive(Clone, Copy, PartialEq, Eq, Debug)]
pub enum Three {
    Extension,
    Node,
}

// What a byte begins where an object is due, if anything.
#[derive(Clone, Copy, PartialEq, Eq, Debug)]
pub enum Letter {
    Leaf(Leaf),
    Many(Many),
    Three(Three),
    Unknown,
}

// Which objects may stand at a place.
#[derive(Clone, Copy, PartialEq, Eq, Debug)]
pub enum Want {
    Any,
    Text,
    EitherDict,
}

// Why a message is refused, in the order of the papers' numbers.
#[derive(Clone, Copy, PartialEq, Eq, Debug)]
pub enum Refusal {
    Ended,
    UnexpectedByte,
    BadText,
    TooDeep,
    NoRow,
    TooLong,
    RepeatedKey,
    BadLimit,
    OutOfRange,
}

// How many rows and bytes of a message were read.
#[derive(Clone, Copy, PartialEq, Eq, Debug)]
pub struct Accepted {
    pub rows: usize,
    pub used: usize,
}

// What reading a message answers.
pub type Answer = Result<Accepted, Refused<Refusal>>;

// The papers' number of a refusal.
impl From<Refusal> for u8 {
    ghost from_gives = { λ refusal number. number ≡ number_of refusal };

    fn from(refusal: Refusal) -> u8 {
        match refusal {
            Refusal::Ended => 1,
            Refusal::UnexpectedByte => 3,
            Refusal::BadText => 5,
            Refusal::TooDeep => 8,
            Refusal::NoRow => 9,
            Refusal::TooLong => 10,
            Refusal::RepeatedKey => 20,
            Refusal::BadLimit => 23,
            Refusal::OutOfRange => 25,
        }
    }
}
