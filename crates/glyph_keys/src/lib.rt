// Reading a dict's key: a unicode, noted with those of its dict before it. See specs/Contract.antt for what becomes of the notes.
// Assumes that the place is in the message, the rows fit the table, and the notes have an entry for each row.
#![tactic(auto)]

ghost use Rattle.std.specs.Prelude.{◌+◌, ◌≤◌, ◌<◌, length};
ghost use Rattle.item.specs.Contract.{Fitting};
ghost use Rattle.glyph_item.specs.Contract.{Did};
ghost use Rattle.glyph_keys.specs.Contract.{name, Prepared, KeyDone, KeyIf};

use glyph::Refusal;
use glyph_item::Step;
use item::Reached;

// A unicode, where nothing else may stand.
#[tactic(auto, unfolding(crate::specs::Contract::name))]
pub fn read_name(s: &[u8], at: usize, row: usize, room: usize, table: &mut [u32]) -> Step
    requires { Fitting at row room (length s.now) (length table.old) }
    ensures { Did (name s.now room at row) (length s.now) room (at + 1) row table.old table.new result }
{
    match s.get(at) {
        None => item::refuse(Refusal::Ended, at),
        Some(b'u') => glyph_texts::read_unicode(s, at, row, room, table),
        Some(_) => item::refuse(Refusal::UnexpectedByte, at),
    }
}

// The key at `at`, for the dict whose first key has the row `owner`. One that came before in its dict is refused at its place.
pub fn read_key(
    s: &[u8],
    at: usize,
    row: usize,
    room: usize,
    table: &mut [u32],
    notes: &mut [u16],
    owner: usize,
) -> Step
    requires { (0 < owner) × (owner ≤ row) × Prepared s.now at row room table.old notes.old }
    ensures { KeyDone s.now room owner at row table.old table.new notes.old notes.new result }
{
    let key = read_name(s, at, row, room, table)?;
    if keys::note(s, table, room, notes, owner, row) {
        return item::refuse(Refusal::RepeatedKey, at);
    }
    Ok(key)
}

// The key and the blanks behind it, where things have keys; else nothing.
pub fn read_key_if(
    keyed: bool,
    s: &[u8],
    at: usize,
    row: usize,
    room: usize,
    table: &mut [u32],
    notes: &mut [u16],
    owner: usize,
) -> Step
    requires { (0 < owner) × (owner ≤ row) × Prepared s.now at row room table.old notes.old }
    ensures { KeyIf keyed s.now room owner at row table.old table.new notes.old notes.new result }
{
    if !keyed {
        return Ok(Reached { at, row });
    }
    let key = read_key(s, at, row, room, table, notes, owner)?;
    let next = glyph_bytes::past_blanks(s, key.at);
    Ok(Reached {
        at: next,
        row: key.row,
    })
}
