// Reading a Value that is no Array and no Struct, by its byte. Items of a fixed size are read by a function that is small enough to become
// part of each loop, all others by a call, which answers in one word: a step lies in memory.
// Assumes that such a byte stands there, the rows fit the table and the codebook has its 256 words.
#![tactic(auto)]

ghost use Rattle.std.specs.Prelude.{◌≡◌, true, false, ◌+◌, ◌<◌, length, get_or};
ghost use Rattle.draft.specs.Read.{floor, item, tag_of};
ghost use Rattle.codebook.specs.Words.{book_of};
ghost use Rattle.item.specs.Contract.{Ready, Did};
ghost use Rattle.scalar.specs.Words.{fixed_size, step_of, Small};

use draft::{Content, Refusal};
use item::{Reached, Step};

// Whether a byte begins an item of a fixed size: an Integer, a Boolean or a recalled String.
#[tactic(auto, unfolding(crate::specs::Words::fixed_size))]
pub fn is_fixed(b: u8) -> bool
    ensures { result ≡ fixed_size b }
{
    matches!(b, b'I' | b't' | b'f' | b'<')
}

// What the byte of a Boolean says.
fn truth(b: u8) -> u32
    ensures { (b ≡ 116 → result ≡ 1) × ((b ≡ 116 → ⊥) → result ≡ 0) }
{
    if b == b't' { 1 } else { 0 }
}

// An item of a fixed size. What may nest plays no part, so it is `floor` in the contracts: nothing.
pub fn read_fixed(
    s: &[u8],
    at: usize,
    row: usize,
    room: usize,
    table: &mut [u32],
    book: &mut [u32],
) -> Step
    requires { (at < length s.now) × (fixed_size (get_or s.now at 0) ≡ true) × Ready at row room (length s.now) (length table.old) (length book.old) }
    ensures { Did (item s.now room (tag_of (get_or s.now at 0)) floor at row (book_of book.old)) (length s.now) room (at + 1) row table.old table.new book.new result }
{
    match s[at] {
        b'I' => leaves::read_integer(s, at, row, room, table),
        b'<' => recalled::read_recalled(s, at, row, room, table, book),
        b => leaves::read_boolean(s, at, row, truth(b), room, table),
    }
}

// An item of another size.
fn read_another(
    s: &[u8],
    at: usize,
    row: usize,
    room: usize,
    table: &mut [u32],
    book: &mut [u32],
) -> Step
    requires { (at < length s.now) × (get_or s.now at 0 ≡ 65 → ⊥) × (get_or s.now at 0 ≡ 83 → ⊥) × (fixed_size (get_or s.now at 0) ≡ false) × Ready at row room (length s.now) (length table.old) (length book.old) }
    ensures { Did (item s.now room (tag_of (get_or s.now at 0)) floor at row (book_of book.old)) (length s.now) room (at + 1) row table.old table.new book.new result }
{
    match s[at] {
        b'D' => leaves::read_short(s, at, row, Content::Double, room, table),
        b'8' => leaves::read_short(s, at, row, Content::DateTime, room, table),
        b'B' => leaves::read_long(s, at, row, Content::Binary, room, table),
        b'O' => others::read_other(s, at, row, room, table, book),
        b'U' => leaves::read_long(s, at, row, Content::Text, room, table),
        b'>' => recorded::read_recorded(s, at, row, room, table, book),
        _ => item::refuse(Refusal::UnexpectedByte, at),
    }
}

// A step as one word.
// Stays: what may not change holds it, the edit place_as_row, which is of a word that holds a step.
fn pack(step: Step) -> usize
    requires { Small step }
    ensures { step_of result ≡ step }
{
    match step {
        Ok(reached) => reached.at + 1048576 * reached.row,
        Err(refused) => {
            let number = usize::from(u8::from(refused.refusal));
            refused.place + 1048576 * 1048576 * number
        }
    }
}

// The step that a word holds.
pub fn step_of(w: usize) -> Step
    ensures { result ≡ step_of w }
{
    let number = w / 1048576 / 1048576;
    if number != 0 {
        return item::refuse(draft::refusal_of(number), w % 1048576);
    }
    Ok(Reached {
        at: w % 1048576,
        row: w / 1048576 % 1048576,
    })
}

// An item of another size, with the answer in one word.
pub fn read_sized(
    s: &[u8],
    at: usize,
    row: usize,
    room: usize,
    table: &mut [u32],
    book: &mut [u32],
) -> usize
    requires { (at < length s.now) × (get_or s.now at 0 ≡ 65 → ⊥) × (get_or s.now at 0 ≡ 83 → ⊥) × (fixed_size (get_or s.now at 0) ≡ false) × Ready at row room (length s.now) (length table.old) (length book.old) }
    ensures { Did (item s.now room (tag_of (get_or s.now at 0)) floor at row (book_of book.old)) (length s.now) room (at + 1) row table.old table.new book.new (step_of result) }
{
    pack(read_another(s, at, row, room, table, book))
}

// Either, for the loops.
pub fn read_scalar(
    s: &[u8],
    at: usize,
    row: usize,
    room: usize,
    table: &mut [u32],
    book: &mut [u32],
) -> Step
    requires { (at < length s.now) × (get_or s.now at 0 ≡ 65 → ⊥) × (get_or s.now at 0 ≡ 83 → ⊥) × Ready at row room (length s.now) (length table.old) (length book.old) }
    ensures { Did (item s.now room (tag_of (get_or s.now at 0)) floor at row (book_of book.old)) (length s.now) room (at + 1) row table.old table.new book.new result }
{
    if is_fixed(s[at]) {
        return read_fixed(s, at, row, room, table, book);
    }
    step_of(read_sized(s, at, row, room, table, book))
}
