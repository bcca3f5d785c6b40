// The declared types that the definitions in specs/ cite.
#![tactic(auto)]

ghost use Rattle.std.specs.Prelude.{◌≡◌};
ghost use Rattle.draft.specs.Refusals.{number_of, refusal_of};
ghost use Rattle.draft.specs.Limits.{allowed as allowedBy};
ghost use Rattle.draft.specs.Rows.{kind_of, item_of};

// How many Arrays and Structs may stand in one another, at most; and where a call states no limit.
pub const MOST_NESTING: usize = 32;

pub const USUAL_NESTING: usize = 8;

// Why a message or a table is refused, by the papers' numbers.
#[derive(Clone, Copy, Debug, PartialEq, Eq)]
pub enum Refusal {
    Ended = 1,
    WrongPrefix = 2,
    UnexpectedByte = 3,
    BadText = 5,
    UnsetPosition = 6,
    StandardName = 7,
    TooDeep = 8,
    NoRow = 9,
    TooLong = 10,
    NotWritable = 11,
    FormTooLong = 12,
    OutputTooShort = 13,
    BadFault = 14,
    BadValue = 17,
    RepeatedKey = 20,
    NoLimit = 23,
}

// A refusal, and the place in the message that it is about.
#[derive(Clone, Copy, Debug, PartialEq, Eq)]
pub struct Refused<R = Refusal> {
    pub refusal: R,
    pub place: usize,
}

// What a rule says of some content.
pub type Verdict = Result<(), Refusal>;

// The items whose rows name content bytes.
#[derive(Clone, Copy, Debug, PartialEq, Eq)]
pub enum Content {
    Double,
    DateTime,
    Binary,
    Text,
}

// What a byte begins where a Value is looked for, if anything.
#[derive(Clone, Copy, Debug, PartialEq, Eq)]
pub enum Tag {
    Plain(Plain),
    String(Form),
    Array,
    Struct,
    Unknown,
}

// The items that are no String and hold no Values.
#[derive(Clone, Copy, Debug, PartialEq, Eq)]
pub enum Plain {
    Integer,
    True,
    False,
    Double,
    DateTime,
    Binary,
    Other,
}

// The three kinds of String.
#[derive(Clone, Copy, Debug, PartialEq, Eq)]
pub enum Form {
    Regular,
    Recorded,
    Recalled,
}

// Where the bytes of a text lie.
#[derive(Clone, Copy, Debug, PartialEq, Eq)]
pub struct Span {
    pub offset: u32,
    pub length: u32,
}

// What a position of the codebook holds: nothing, or a text by where its bytes lie.
pub type Entry = Option<Span>;

// A row of a table: four words.
#[derive(Clone, Copy, Debug, PartialEq, Eq)]
pub struct Row {
    pub kind: u32,
    pub a: u32,
    pub b: u32,
    pub end: u32,
}

// The item that a row's kind names, if any.
#[derive(Clone, Copy, Debug, PartialEq, Eq)]
pub enum Item {
    Call,
    Response,
    Fault,
    Integer,
    Boolean,
    Content(Content),
    Array,
    Struct,
    Other,
    Unknown,
}

// Whether a call may state this limit of nesting.
pub fn allowed(limit: usize) -> bool
    ensures { result ≡ allowedBy limit }
{
    if limit < 1 {
        return false;
    }
    limit <= MOST_NESTING
}

// The papers' number of a refusal.
impl From<Refusal> for u8 {
    ghost from_gives = { λ r n. n ≡ number_of r };

    fn from(refusal: Refusal) -> u8 {
        refusal as u8
    }
}

pub fn number(refusal: Refusal) -> u8
    ensures { result ≡ number_of refusal }
{
    u8::from(refusal)
}

// The refusal that has a number.
pub fn refusal_of(number: usize) -> Refusal
    ensures { result ≡ refusal_of number }
{
    match number {
        1 => Refusal::Ended,
        2 => Refusal::WrongPrefix,
        3 => Refusal::UnexpectedByte,
        5 => Refusal::BadText,
        6 => Refusal::UnsetPosition,
        7 => Refusal::StandardName,
        8 => Refusal::TooDeep,
        9 => Refusal::NoRow,
        10 => Refusal::TooLong,
        11 => Refusal::NotWritable,
        12 => Refusal::FormTooLong,
        13 => Refusal::OutputTooShort,
        14 => Refusal::BadFault,
        17 => Refusal::BadValue,
        20 => Refusal::RepeatedKey,
        _ => Refusal::NoLimit,
    }
}

// The kind of a row that names content bytes.
pub fn kind(content: Content) -> u32
    ensures { result ≡ kind_of content }
{
    match content {
        Content::Double => 6,
        Content::DateTime => 7,
        Content::Binary => 8,
        Content::Text => 11,
    }
}

// The item that a row's kind names, if any.
pub fn item_of(kind: u32) -> Item
    ensures { result ≡ item_of kind }
{
    match kind {
        1 => Item::Call,
        2 => Item::Response,
        3 => Item::Fault,
        4 => Item::Integer,
        5 => Item::Boolean,
        6 => Item::Content(Content::Double),
        7 => Item::Content(Content::DateTime),
        8 => Item::Content(Content::Binary),
        9 => Item::Array,
        10 => Item::Struct,
        11 => Item::Content(Content::Text),
        12 => Item::Other,
        _ => Item::Unknown,
    }
}
