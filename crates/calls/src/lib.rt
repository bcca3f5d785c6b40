// Reading a Call: its method, a String, and its Array.
// Assumes that the place is in the message, the rows fit the table, the codebook has its 256 words and the notes on keys are blank, with an
// entry for each row.
#![tactic(auto)]

ghost use Rattle.std.specs.Prelude.{◌≡◌, ◌+◌, ◌<◌, length, replicate};
ghost use Rattle.draft.specs.Read.{pair, string, only, array_item, nested, call_item};
ghost use Rattle.codebook.specs.Words.{book_of};
ghost use Rattle.item.specs.Contract.{Ready, Did};
ghost use Rattle.member_keys.specs.Contract.{Entries};

use draft::Refusal;
use item::Step;

// An Array, where nothing else is allowed.
fn read_array_only(
    s: &[u8],
    at: usize,
    row: usize,
    deep: usize,
    room: usize,
    table: &mut [u32],
    book: &mut [u32],
    notes: &mut [u16],
) -> Step
    requires { Ready at row room (length s.now) (length table.old) (length book.old) × Entries at row room (length s.now) (length notes.old) × (notes.old ≡ replicate (length notes.old) 0) }
    ensures { Did (only s.now room 65 (array_item s.now room (nested s.now room deep)) at row (book_of book.old)) (length s.now) room (at + 1) row table.old table.new book.new result }
{
    if s.len() <= at {
        return item::refuse(Refusal::Ended, at);
    }
    if s[at] == b'A' {
        value::read_array(s, at, row, deep, room, table, book, notes)
    } else {
        item::refuse(Refusal::UnexpectedByte, at)
    }
}

// A Call's method and its Array.
fn read_method_and_array(
    s: &[u8],
    at: usize,
    row: usize,
    deep: usize,
    room: usize,
    table: &mut [u32],
    book: &mut [u32],
    notes: &mut [u16],
) -> Step
    requires { Ready at row room (length s.now) (length table.old) (length book.old) × Entries at row room (length s.now) (length notes.old) × (notes.old ≡ replicate (length notes.old) 0) }
    ensures { Did (pair (string s.now room) (only s.now room 65 (array_item s.now room (nested s.now room deep))) at row (book_of book.old)) (length s.now) room (at + 1) row table.old table.new book.new result }
{
    let method = strings::read_string(s, at, row, room, table, book)?;
    read_array_only(s, method.at, method.row, deep, room, table, book, notes)
}

// The Call whose byte stands at `at`.
pub fn read_call(
    s: &[u8],
    at: usize,
    row: usize,
    deep: usize,
    room: usize,
    table: &mut [u32],
    book: &mut [u32],
    notes: &mut [u16],
) -> Step
    requires { (at < length s.now) × Ready at row room (length s.now) (length table.old) (length book.old) × Entries at row room (length s.now) (length notes.old) × (notes.old ≡ replicate (length notes.old) 0) }
    ensures { Did (call_item s.now room deep at row (book_of book.old)) (length s.now) room (at + 1) row table.old table.new book.new result }
{
    if room <= row {
        return item::refuse(Refusal::NoRow, at);
    }
    let step = read_method_and_array(s, at + 1, row + 1, deep, room, table, book, notes);
    item::close(step, 1, 2, row, room, table)
}
