// Reading a String that is recorded. `book` is the codebook's 256 words.
// Assumes that the place is in the message and the rows fit the table.
#![tactic(auto)]

ghost use Rattle.std.specs.Prelude.{◌+◌, ◌<◌, length};
ghost use Rattle.draft.specs.Read.{recorded_item};
ghost use Rattle.codebook.specs.Words.{book_of};
ghost use Rattle.item.specs.Contract.{Ready, Did};

use draft::{Content, Refusal};
use item::Step;

// A String that is recorded, once its text is taken: only then do offset and length fit a word of the codebook.
pub fn read_recorded(
    s: &[u8],
    at: usize,
    row: usize,
    room: usize,
    table: &mut [u32],
    book: &mut [u32],
) -> Step
    requires { (at < length s.now) × Ready at row room (length s.now) (length table.old) (length book.old) }
    ensures { Did (recorded_item s.now room at row (book_of book.old)) (length s.now) room (at + 1) row table.old table.new book.new result }
{
    if room <= row {
        return item::refuse(Refusal::NoRow, at);
    }
    if s.len() < at + 6 {
        return item::refuse(Refusal::Ended, at);
    }
    let n = item::unsigned(s, at + 2);
    let o = at + 6;
    let reached = leaves::put_contents(s, at, row, Content::Text, o, n, room, table)?;
    codebook::record(book, s[at + 1], o as u32, n as u32);
    Ok(reached)
}
