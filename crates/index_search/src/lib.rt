// A key looked up through entries, on plain slices and numbers: the steps of a search, and what it answers. The functions that have the list itself are
// in `binmode`; each turn of theirs calls one function of these, which decides everything.
#![tactic(auto)]

ghost use Rattle.std.specs.Prelude.{◌≡◌, true, ◌-◌, ◌*◌, ◌≤◌, ◌<◌, length, get_or};
ghost use Rattle.draft.specs.Table.{row_at};
ghost use Rattle.draft.specs.Writable.{writable as writableIn};
ghost use Rattle.lookup_answer.specs.Reports.{report_of};
ghost use Rattle.seeking.specs.Seeking.{over, begun, turned};
ghost use Rattle.index_search.specs.Through.{relation_to, is_member, verified, judged_of, start_of, question_at, asks, Rightly, step_for, answer_for};

use lookup_answer::{Refusal, Report, Value};
use member::Member;
use seeking::Search;
use std::cmp::Ordering;

// A key asked for: among how many rows, of the Struct of which row, and where it lies among the keys; and 0, or 11 if the table is not writable.
// Stays: the number is one of the five words that each turn of binmode's loop copies, and E8's laws (Through.asks, Rightly) speak of it.
#[derive(Clone, Copy)]
pub struct Question {
    pub rows: usize,
    pub row: usize,
    pub number: u8,
    pub start: usize,
    pub length: usize,
}

// The table judged, for questions about the Struct of row r: 0 or 11, and no key yet.
pub fn judge<'a>(table: &'a [u32], rows: usize, text: &'a [u8], r: usize) -> Question
    ensures { result ≡ judged_of table.now rows text.now r }
{
    if shape::writable(table, rows, text) {
        return Question {
            rows,
            row: r,
            number: 0,
            start: 0,
            length: 0,
        };
    }
    Question {
        rows,
        row: r,
        number: 11,
        start: 0,
        length: 0,
    }
}

// Number i, and 0 past the end.
fn number_at(numbers: &[u32], i: usize) -> usize
    ensures { result ≡ get_or numbers.now i 0 }
{
    if numbers.len() <= i {
        return 0;
    }
    numbers[i] as usize
}

// Where key i begins: at the end of the one before it.
fn start_of(ends: &[u32], i: usize) -> usize
    ensures { result ≡ start_of ends.now i }
{
    if i == 0 {
        return 0;
    }
    number_at(ends, i - 1)
}

fn difference(a: usize, b: usize) -> usize
    ensures { result ≡ a - b }
{
    if a < b {
        return 0;
    }
    a - b
}

// The question for key i, of keys that lie one behind the other and end there.
pub fn question_at<'a>(judged: Question, ends: &'a [u32], i: usize) -> Question
    ensures { result ≡ question_at judged ends.now i }
{
    let start = start_of(ends, i);
    let end = number_at(ends, i);
    Question {
        rows: judged.rows,
        row: judged.row,
        number: judged.number,
        start,
        length: difference(end, start),
    }
}

// A search through n entries begins; of a table that is not writable it is over.
pub fn begin(question: Question, n: usize) -> Search
    ensures { result ≡ begun (asks question) n }
{
    seeking::begin(question.number == 0, n)
}

// How the text of an entry's key stands to a key; an unused entry counts as after every key.
fn relation_to(table: &[u32], room: usize, text: &[u8], key: &[u8], e: Member) -> Ordering
    requires { (room ≤ 4096) × (room * 4 ≤ length table.now) }
    ensures { result ≡ relation_to room (row_at room table.now) text.now key.now e }
{
    if e.key == 0 {
        return Ordering::Greater;
    }
    order::compare(sorting::key_text(table, room, text, e.key as usize), key)
}

// An entry whose text is the key: it is answered only if its two rows are those of a member of the Struct of row r.
fn verify(table: &[u32], room: usize, rows: usize, r: usize, e: Member) -> Search
    requires { (rows ≤ room) × (room ≤ 4096) × (room * 4 ≤ length table.now) }
    ensures { result ≡ verified (is_member (row_at room table.now) rows r e) e }
{
    if member::is_member(table, room, rows, r, e) {
        return seeking::ended(e.value);
    }
    seeking::ended(0)
}

// One entry is looked at.
fn step_in(
    table: &[u32],
    room: usize,
    rows: usize,
    text: &[u8],
    r: usize,
    key: &[u8],
    st: Search,
    e: Member,
) -> Search
    requires { (rows ≤ room) × (room ≤ 4096) × (room * 4 ≤ length table.now) × (st.at < over) }
    ensures { result ≡ turned (relation_to room (row_at room table.now) text.now key.now e) (is_member (row_at room table.now) rows r e) st e }
{
    let relation = relation_to(table, room, text, key, e);
    let at = st.at;
    match relation {
        Ordering::Less => seeking::between(at + 1, st.high),
        Ordering::Equal => verify(table, room, rows, r, e),
        Ordering::Greater => seeking::between(st.low, at),
    }
}

// The same for a question, in a table that was judged before.
pub fn step<'a>(
    table: &'a [u32],
    text: &'a [u8],
    keys: &'a [u8],
    question: Question,
    st: Search,
    e: Member,
) -> Search
    requires { (writableIn table.now question.rows text.now ≡ true) × (st.at < over) }
    ensures { result ≡ step_for table.now text.now keys.now question st e }
{
    let room = table::room_of(table.len());
    let start = question.start;
    let key = content::part(keys, start, question.length);
    step_in(table, room, question.rows, text, question.row, key, st, e)
}

// What a question is answered by a search that is over.
fn answer(table: &[u32], text: &[u8], question: Question, st: Search) -> Result<Value, Refusal>
    requires { Rightly table.now text.now question }
    ensures { result ≡ answer_for table.now text.now question st }
{
    if question.number == 0 {
        let value = st.value;
        if value == 0 {
            return Err(Refusal::NoMember);
        }
        if question.rows <= value as usize {
            return Err(Refusal::NoMember);
        }
        let room = table::room_of(table.len());
        return lookup_answer::row_answer(table, room, text, value);
    }
    Err(Refusal::NotWritable)
}

// The same in numbers.
pub fn report<'a>(table: &'a [u32], text: &'a [u8], question: Question, st: Search) -> Report
    requires { Rightly table.now text.now question }
    ensures { result ≡ report_of (answer_for table.now text.now question st) }
{
    lookup_answer::report_of(answer(table, text, question, st))
}
