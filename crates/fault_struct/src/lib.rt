// Reading a fault's Struct, which is judged once it is read.
// Assumes that the place is in the message, the rows fit the table, the codebook has its 256 words and the notes on keys are blank, with an
// entry for each row.
#![tactic(auto)]

ghost use Rattle.std.specs.Prelude.{◌≡◌, ◌+◌, length, replicate};
ghost use Rattle.draft.specs.Read.{only, struct_item, nested, fault_struct};
ghost use Rattle.codebook.specs.Words.{book_of};
ghost use Rattle.item.specs.Contract.{Ready, Did};
ghost use Rattle.member_keys.specs.Contract.{Entries};

use draft::Refusal;
use item::Step;

// A Struct, where nothing else is allowed.
fn read_struct_only(
    s: &[u8],
    at: usize,
    row: usize,
    deep: usize,
    room: usize,
    table: &mut [u32],
    book: &mut [u32],
    notes: &mut [u16],
) -> Step
    requires { Ready at row room (length s.now) (length table.old) (length book.old) × Entries at row room (length s.now) (length notes.old) × (notes.old ≡ replicate (length notes.old) 0) }
    ensures { Did (only s.now room 83 (struct_item s.now room (nested s.now room deep)) at row (book_of book.old)) (length s.now) room (at + 1) row table.old table.new book.new result }
{
    if s.len() <= at {
        return item::refuse(Refusal::Ended, at);
    }
    if s[at] == b'S' {
        value::read_value(s, at, row, deep, room, table, book, notes)
    } else {
        item::refuse(Refusal::UnexpectedByte, at)
    }
}

// A fault's Struct, judged once it is read.
pub fn read_fault_struct(
    s: &[u8],
    at: usize,
    row: usize,
    deep: usize,
    room: usize,
    table: &mut [u32],
    book: &mut [u32],
    notes: &mut [u16],
) -> Step
    requires { Ready at row room (length s.now) (length table.old) (length book.old) × Entries at row room (length s.now) (length notes.old) × (notes.old ≡ replicate (length notes.old) 0) }
    ensures { Did (fault_struct s.now room deep at row (book_of book.old)) (length s.now) room (at + 1) row table.old table.new book.new result }
{
    let inside = read_struct_only(s, at, row, deep, room, table, book, notes)?;
    let verdict = fault::judge(table, room, s, row, inside.row);
    item::judged(verdict, at, Ok(inside))
}
