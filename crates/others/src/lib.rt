// Reading an Other: its type name, a String that is judged as soon as it is read, and its Binary.
// Assumes that the place is in the message and the rows fit the table.
#![tactic(auto)]

ghost use Rattle.std.specs.Prelude.{◌≡◌, ◌+◌, ◌*◌, ◌≤◌, ◌<◌, length};
ghost use Rattle.draft.specs.Table.{row_at};
ghost use Rattle.draft.specs.Read.{text_of, pair, long_item, only, string, name, other_item};
ghost use Rattle.codebook.specs.Words.{book_of};
ghost use Rattle.item.specs.Contract.{Fitting, Ready, Did, Stored};

use draft::{Content, Refusal};
use item::Step;

// A Binary, where nothing else is allowed.
fn read_binary(s: &[u8], at: usize, row: usize, room: usize, table: &mut [u32]) -> Step
    requires { Fitting at row room (length s.now) (length table.old) }
    ensures { Stored (only s.now room 66 (long_item s.now room Content.Binary) at row) (length s.now) room (at + 1) row table.old table.new result }
{
    if s.len() <= at {
        return item::refuse(Refusal::Ended, at);
    }
    if s[at] == b'B' {
        leaves::read_long(s, at, row, Content::Binary, room, table)
    } else {
        item::refuse(Refusal::UnexpectedByte, at)
    }
}

// The text of row r, or as much of it as lies in the message.
fn row_text<'a>(s: &'a [u8], table: &[u32], room: usize, r: usize) -> &'a [u8]
    requires { (r < room) × (room ≤ 4096) × (room * 4 ≤ length table.now) }
    ensures { result.now ≡ text_of s.now (row_at room table.now r) }
{
    let row = table::get_row(table, room, r);
    content::part(s, row.a as usize, row.b as usize)
}

// A String, as `strings::read_string` reads it. Called once, it is compiled into its caller, where that of a Call's method is not.
fn read_type(
    s: &[u8],
    at: usize,
    row: usize,
    room: usize,
    table: &mut [u32],
    book: &mut [u32],
) -> Step
    requires { Ready at row room (length s.now) (length table.old) (length book.old) }
    ensures { Did (string s.now room at row (book_of book.old)) (length s.now) room (at + 1) row table.old table.new book.new result }
{
    if s.len() <= at {
        return item::refuse(Refusal::Ended, at);
    }
    match s[at] {
        b'<' => recalled::read_recalled(s, at, row, room, table, book),
        _ => strings::read_sent(s, at, row, room, table, book),
    }
}

// The name of the Other at o.
fn read_name(
    s: &[u8],
    at: usize,
    row: usize,
    o: usize,
    room: usize,
    table: &mut [u32],
    book: &mut [u32],
) -> Step
    requires { Ready at row room (length s.now) (length table.old) (length book.old) }
    ensures { Did (name s.now room o at row (book_of book.old)) (length s.now) room (at + 1) row table.old table.new book.new result }
{
    let reached = read_type(s, at, row, room, table, book)?;
    let verdict = content::judge_name(row_text(s, table, room, row));
    item::judged(verdict, o, Ok(reached))
}

// The name of the Other at o, and its Binary.
fn read_name_and_binary(
    s: &[u8],
    at: usize,
    row: usize,
    o: usize,
    room: usize,
    table: &mut [u32],
    book: &mut [u32],
) -> Step
    requires { Ready at row room (length s.now) (length table.old) (length book.old) }
    ensures { Did (pair (name s.now room o) (only s.now room 66 (long_item s.now room Content.Binary)) at row (book_of book.old)) (length s.now) room (at + 1) row table.old table.new book.new result }
{
    let name = read_name(s, at, row, o, room, table, book)?;
    read_binary(s, name.at, name.row, room, table)
}

pub fn read_other(
    s: &[u8],
    at: usize,
    row: usize,
    room: usize,
    table: &mut [u32],
    book: &mut [u32],
) -> Step
    requires { (at < length s.now) × Ready at row room (length s.now) (length table.old) (length book.old) }
    ensures { Did (other_item s.now room at row (book_of book.old)) (length s.now) room (at + 1) row table.old table.new book.new result }
{
    if room <= row {
        return item::refuse(Refusal::NoRow, at);
    }
    let step = read_name_and_binary(s, at + 1, row + 1, at, room, table, book);
    item::close(step, 12, 2, row, room, table)
}
