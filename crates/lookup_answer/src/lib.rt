// What a member of a Struct answers, by its row: a whole number, a decimal, a yes or no, a text, or another item's row; and that in numbers.
#![tactic(auto, using(crate::proofs::Answering::signing, crate::proofs::Answering::answering, crate::proofs::Reporting::reporting))]

ghost use Rattle.std.specs.Prelude.{◌≡◌, ◌*◌, ◌≤◌, ◌<◌, length};
ghost use Rattle.draft.specs.Table.{row_at};
ghost use Rattle.lookup_answer.specs.Reports.{report_of};
ghost use Rattle.lookup_answer.specs.Answers.{number_of, signed as signed_of, decimal_answer, content_answer, item_answer, answer_at};

use decimal::TooManyDigits;
use draft::{Content, Item, Row};

// Why nothing is answered: the table is not writable; the row is no Struct, or has no such member, or it is of the wrong sort; too many digits.
#[derive(Clone, Copy, PartialEq, Eq, Debug)]
pub enum Refusal {
    NotWritable,
    NoMember,
    TooManyDigits,
}

// What a member answers. Any item that is no number, yes or no, or text answers with its row.
#[derive(Clone, Copy)]
pub enum Value {
    Whole(i64),
    Decimal(f64),
    Truth(bool),
    Text { offset: u32, length: u32 },
    Row(u32),
}

// An answer in numbers, for programs in C and Rust. The sort is 1 for a whole number, 2 for a decimal, 3 for a yes or no, 4 for a text, 5 for another
// item's row, and 0 for a refusal; `number` is 0 then or the refusal's, and what is not the answer's is 0.
#[repr(C)]
#[derive(Drop)]
pub struct Report {
    pub number: u8,
    pub sort: u8,
    pub whole: i64,
    pub decimal: f64,
    pub offset: u64,
    pub length: u64,
}

// The papers' number of a refusal.
impl From<Refusal> for u8 {
    ghost from_gives = { λ r n. n ≡ number_of r };

    fn from(refusal: Refusal) -> u8 {
        match refusal {
            Refusal::NotWritable => 11,
            Refusal::NoMember => 18,
            Refusal::TooManyDigits => 19,
        }
    }
}

// An Integer's 32 bits as a signed number.
fn signed(bits: u32) -> i64
    ensures { result ≡ signed_of bits }
{
    if bits < 2147483648 {
        bits as i64
    } else {
        bits as i64 - 4294967296
    }
}

fn decimal_answer(value: Result<f64, TooManyDigits>) -> Result<Value, Refusal>
    ensures { result ≡ decimal_answer value }
{
    match value {
        Ok(x) => Ok(Value::Decimal(x)),
        Err(TooManyDigits) => Err(Refusal::TooManyDigits),
    }
}

// What an item with content answers, whose row is number r.
fn content_answer(text: &[u8], content: Content, row: Row, r: u32) -> Result<Value, Refusal>
    ensures { result ≡ content_answer content text.now row r }
{
    match content {
        Content::Double => decimal_answer(decimal::decimal_of(content::part(
            text,
            row.a as usize,
            row.b as usize,
        ))),
        Content::DateTime | Content::Binary => Ok(Value::Row(r)),
        Content::Text => Ok(Value::Text {
            offset: row.a,
            length: row.b,
        }),
    }
}

// What an item answers, whose row is number r. A Call and a Response are no member's value.
fn item_answer(text: &[u8], item: Item, row: Row, r: u32) -> Result<Value, Refusal>
    ensures { result ≡ item_answer item text.now row r }
{
    match item {
        Item::Integer => Ok(Value::Whole(signed(row.a))),
        Item::Boolean => Ok(Value::Truth(row.a == 1)),
        Item::Content(content) => content_answer(text, content, row, r),
        Item::Array | Item::Struct | Item::Other => Ok(Value::Row(r)),
        Item::Call | Item::Response | Item::Fault | Item::Unknown => Err(Refusal::NoMember),
    }
}

// What row r answers, in a table that was judged before.
#[tactic(auto, unfolding(crate::specs::Answers::answer_at))]
pub fn row_answer(table: &[u32], room: usize, text: &[u8], r: u32) -> Result<Value, Refusal>
    requires { (r < room) × (room ≤ 4096) × (room * 4 ≤ length table.now) }
    ensures { result ≡ answer_at (row_at room table.now) text.now r }
{
    let row = table::get_row(table, room, r as usize);
    item_answer(text, draft::item_of(row.kind), row, r)
}

// An answer in numbers.
pub fn report_of(answer: Result<Value, Refusal>) -> Report
    ensures { result ≡ report_of answer }
{
    let zeros = Report {
        number: 0,
        sort: 0,
        whole: 0,
        decimal: 0.0,
        offset: 0,
        length: 0,
    };
    match answer {
        Ok(Value::Whole(n)) => Report {
            sort: 1,
            whole: n,
            ..zeros
        },
        Ok(Value::Decimal(x)) => Report {
            sort: 2,
            decimal: x,
            ..zeros
        },
        Ok(Value::Truth(b)) => Report {
            sort: 3,
            whole: b as i64,
            ..zeros
        },
        Ok(Value::Text { offset, length }) => Report {
            sort: 4,
            offset: offset as u64,
            length: length as u64,
            ..zeros
        },
        Ok(Value::Row(r)) => Report {
            sort: 5,
            whole: r as i64,
            ..zeros
        },
        Err(refusal) => Report {
            number: refusal.into(),
            ..zeros
        },
    }
}
