// Reading a String that is recalled. `book` is the codebook's 256 words.
// Assumes that the place is in the message and the rows fit the table.
#![tactic(auto)]

ghost use Rattle.std.specs.Prelude.{◌+◌, ◌<◌, length};
ghost use Rattle.draft.specs.Read.{recalled_item};
ghost use Rattle.codebook.specs.Words.{book_of};
ghost use Rattle.item.specs.Contract.{Ready, Did};

use draft::Refusal;
use item::Step;

// A String that is recalled.
pub fn read_recalled(
    s: &[u8],
    at: usize,
    row: usize,
    room: usize,
    table: &mut [u32],
    book: &mut [u32],
) -> Step
    requires { (at < length s.now) × Ready at row room (length s.now) (length table.old) (length book.old) }
    ensures { Did (recalled_item s.now room at row (book_of book.old)) (length s.now) room (at + 1) row table.old table.new book.new result }
{
    if room <= row {
        return item::refuse(Refusal::NoRow, at);
    }
    if s.len() < at + 2 {
        return item::refuse(Refusal::Ended, at);
    }
    let Some(text) = codebook::recall(book, s[at + 1]) else {
        return item::refuse(Refusal::UnsetPosition, at);
    };
    Ok(item::put_leaf(row, at + 2, 11, text.offset, text.length, room, table))
}
