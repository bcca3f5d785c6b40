// Reading a Response: a Value, or a fault's Struct.
// Assumes that the place is in the message, the rows fit the table, the codebook has its 256 words and the notes on keys are blank, with an
// entry for each row.
#![tactic(auto)]

ghost use Rattle.std.specs.Prelude.{◌≡◌, ◌+◌, ◌<◌, length, replicate};
ghost use Rattle.draft.specs.Read.{response_item, value};
ghost use Rattle.codebook.specs.Words.{book_of};
ghost use Rattle.item.specs.Contract.{Ready, Did};
ghost use Rattle.member_keys.specs.Contract.{Entries, Prepared, Done};

use draft::Refusal;
use item::Step;

// A Value, by its first byte: an Array has a function of its own.
fn read_result(
    s: &[u8],
    at: usize,
    row: usize,
    deep: usize,
    room: usize,
    table: &mut [u32],
    book: &mut [u32],
    notes: &mut [u16],
) -> Step
    requires { (at < length s.now) × Prepared s.now at row room table.old book.old notes.old }
    ensures { Done (value s.now room deep at row (book_of book.old)) s.now room (at + 1) row table.old table.new book.new notes.old notes.new result }
{
    if s[at] == b'A' {
        return value::read_array(s, at, row, deep, room, table, book, notes);
    }
    value::read_value(s, at, row, deep, room, table, book, notes)
}

// The Response whose byte stands at `at`: a fault's Struct, or a Value.
pub fn read_response(
    s: &[u8],
    at: usize,
    row: usize,
    deep: usize,
    room: usize,
    table: &mut [u32],
    book: &mut [u32],
    notes: &mut [u16],
) -> Step
    requires { (at < length s.now) × Ready at row room (length s.now) (length table.old) (length book.old) × Entries at row room (length s.now) (length notes.old) × (notes.old ≡ replicate (length notes.old) 0) }
    ensures { Did (response_item s.now room deep at row (book_of book.old)) (length s.now) room (at + 1) row table.old table.new book.new result }
{
    let next = at + 1;
    if room <= row {
        return item::refuse(Refusal::NoRow, at);
    }
    if s.len() <= next {
        return item::refuse(Refusal::Ended, next);
    }
    if s[next] == b'F' {
        let step = fault_struct::read_fault_struct(
            s,
            at + 2,
            row + 1,
            deep,
            room,
            table,
            book,
            notes,
        );
        item::close(step, 3, 1, row, room, table)
    } else {
        let step = read_result(s, next, row + 1, deep, room, table, book, notes);
        item::close(step, 2, 1, row, room, table)
    }
}
