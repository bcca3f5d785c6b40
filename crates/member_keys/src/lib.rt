// Reading a Struct's key: a String, noted with those of its Struct before it. See specs/Contract.antt for what becomes of the notes.
// Assumes that the place is in the message, the rows fit the table, the codebook has its 256 words and the notes an entry for each row.
#![tactic(auto)]

ghost use Rattle.std.specs.Prelude.{◌≡◌, ◌&&◌, ◌+◌, ◌≤◌, ◌<◌, length, get_or, ltb, eqb};
ghost use Rattle.draft.specs.Read.{string};
ghost use Rattle.codebook.specs.Words.{book_of};
ghost use Rattle.item.specs.Contract.{Ready, Did};
ghost use Rattle.member_keys.specs.Contract.{Prepared, KeyDone};

use draft::Refusal;
use item::Step;

// Whether a recalled String stands at a place.
fn is_recalled(s: &[u8], at: usize) -> bool
    ensures { result ≡ (ltb at (length s.now) && eqb (get_or s.now at 0) 60) }
{
    if s.len() <= at {
        return false;
    }
    s[at] == b'<'
}

// A String. A recalled one is looked for first: in a run of Structs with the same keys most are.
fn read_name(
    s: &[u8],
    at: usize,
    row: usize,
    room: usize,
    table: &mut [u32],
    book: &mut [u32],
) -> Step
    requires { Ready at row room (length s.now) (length table.old) (length book.old) }
    ensures { Did (string s.now room at row (book_of book.old)) (length s.now) room (at + 1) row table.old table.new book.new result }
{
    if is_recalled(s, at) {
        return recalled::read_recalled(s, at, row, room, table, book);
    }
    strings::read_sent(s, at, row, room, table, book)
}

// The key at `at`, for the Struct whose first key has the row `owner`. One that came before in its Struct is refused at its place.
pub fn read_key(
    s: &[u8],
    at: usize,
    row: usize,
    room: usize,
    table: &mut [u32],
    book: &mut [u32],
    notes: &mut [u16],
    owner: usize,
) -> Step
    requires { (0 < owner) × (owner ≤ row) × Prepared s.now at row room table.old book.old notes.old }
    ensures { KeyDone s.now room owner at row table.old table.new book.old book.new notes.old notes.new result }
{
    let key = read_name(s, at, row, room, table, book)?;
    let h = keys::place(s, table, room, notes, owner, row);
    if keys::crowded(notes, owner, h) {
        if keys::note_in(s, table, room, notes, owner, row, h) {
            return item::refuse(Refusal::RepeatedKey, at);
        }
        return Ok(key);
    }
    keys::join(notes, owner, row, h);
    Ok(key)
}
