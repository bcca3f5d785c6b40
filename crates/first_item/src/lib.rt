// The first item of a message, a Call or a Response, with notes on keys for as many rows as there can be.
// Assumes that the place is in the message, the rows fit the table and the codebook has its 256 words.
#![tactic(auto)]

ghost use Rattle.std.specs.Prelude.{◌≡◌, ◌+◌, ◌/◌, ◌≤◌, min, length, replicate};
ghost use Rattle.draft.specs.Read.{call_or_response};
ghost use Rattle.codebook.specs.Words.{book_of};
ghost use Rattle.item.specs.Contract.{Ready, Did};
ghost use Rattle.member_keys.specs.Contract.{Entries};

use draft::Refusal;
use item::Step;

fn read_call_or_response(
    s: &[u8],
    at: usize,
    row: usize,
    deep: usize,
    room: usize,
    table: &mut [u32],
    book: &mut [u32],
    notes: &mut [u16],
) -> Step
    requires { Ready at row room (length s.now) (length table.old) (length book.old) × Entries at row room (length s.now) (length notes.old) × (notes.old ≡ replicate (length notes.old) 0) }
    ensures { Did (call_or_response s.now room deep at row (book_of book.old)) (length s.now) room (at + 1) row table.old table.new book.new result }
{
    if s.len() <= at {
        return item::refuse(Refusal::Ended, at);
    }
    if s[at] == b'C' {
        return calls::read_call(s, at, row, deep, room, table, book, notes);
    }
    if s[at] == b'R' {
        return responses::read_response(s, at, row, deep, room, table, book, notes);
    }
    item::refuse(Refusal::UnexpectedByte, at)
}

// With notes on keys of so many words, three for each row.
fn read_noted<const N: usize>(
    s: &[u8],
    deep: usize,
    room: usize,
    table: &mut [u32],
    book: &mut [u32],
) -> Step
    requires { Ready 12 0 room (length s.now) (length table.old) (length book.old) × (min room (length s.now) ≤ N / 3) × (N ≤ 12288) }
    ensures { Did (call_or_response s.now room deep 12 0 (book_of book.old)) (length s.now) room 13 0 table.old table.new book.new result }
{
    let mut notes = [0u16; N];
    read_call_or_response(s, 12, 0, deep, room, table, book, &mut notes)
}

// The first item, with notes on keys for as many rows as there can be: no more than there is room for, nor than the message has bytes. Laying
// out the largest takes longer than reading a small message, so a small one gets small ones.
pub fn read_first(s: &[u8], deep: usize, room: usize, table: &mut [u32], book: &mut [u32]) -> Step
    requires { Ready 12 0 room (length s.now) (length table.old) (length book.old) }
    ensures { Did (call_or_response s.now room deep 12 0 (book_of book.old)) (length s.now) room 13 0 table.old table.new book.new result }
{
    let rows = room.min(s.len());
    if rows <= 16 {
        return read_noted::<48>(s, deep, room, table, book);
    }
    if rows <= 64 {
        return read_noted::<192>(s, deep, room, table, book);
    }
    if rows <= 512 {
        return read_noted::<1536>(s, deep, room, table, book);
    }
    read_noted::<12288>(s, deep, room, table, book)
}
