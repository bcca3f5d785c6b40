// Reading a String, where nothing else is allowed: regular, recorded or recalled. `book` is the codebook's 256 words.
// Assumes that the place is in the message and the rows fit the table.
#![tactic(auto)]

ghost use Rattle.std.specs.Prelude.{◌≡◌, ◌+◌, length, get_or};
ghost use Rattle.draft.specs.Read.{string};
ghost use Rattle.codebook.specs.Words.{book_of};
ghost use Rattle.item.specs.Contract.{Ready, Did};

use draft::{Content, Refusal};
use item::Step;

// A String that is sent in full, where nothing else is allowed, and none is recalled.
pub fn read_sent(
    s: &[u8],
    at: usize,
    row: usize,
    room: usize,
    table: &mut [u32],
    book: &mut [u32],
) -> Step
    requires { (get_or s.now at 0 ≡ 60 → ⊥) × Ready at row room (length s.now) (length table.old) (length book.old) }
    ensures { Did (string s.now room at row (book_of book.old)) (length s.now) room (at + 1) row table.old table.new book.new result }
{
    if s.len() <= at {
        return item::refuse(Refusal::Ended, at);
    }
    match s[at] {
        b'U' => leaves::read_long(s, at, row, Content::Text, room, table),
        b'>' => recorded::read_recorded(s, at, row, room, table, book),
        _ => item::refuse(Refusal::UnexpectedByte, at),
    }
}

// A String, where nothing else is allowed.
pub fn read_string(
    s: &[u8],
    at: usize,
    row: usize,
    room: usize,
    table: &mut [u32],
    book: &mut [u32],
) -> Step
    requires { Ready at row room (length s.now) (length table.old) (length book.old) }
    ensures { Did (string s.now room at row (book_of book.old)) (length s.now) room (at + 1) row table.old table.new book.new result }
{
    if s.len() <= at {
        return item::refuse(Refusal::Ended, at);
    }
    match s[at] {
        b'<' => recalled::read_recalled(s, at, row, room, table, book),
        _ => read_sent(s, at, row, room, table, book),
    }
}
