// Looking up a member of a Struct. The table is judged first, once; after that one pass over the Struct's members finds the one with the key.
#![tactic(auto, using(crate::proofs::Looking::looking))]

ghost use Rattle.std.specs.Prelude.{◌≡◌, ◌*◌, ◌≤◌, length};
ghost use Rattle.draft.specs.Table.{row_at};
ghost use Rattle.lookup_answer.specs.Answers.{look as lookIn, lookup as lookupIn};

use lookup_answer::{Refusal, Value};

// What the member with a key answers in the Struct of row r, in a table that was judged before.
pub fn look(
    table: &[u32],
    room: usize,
    rows: usize,
    text: &[u8],
    r: usize,
    key: &[u8],
) -> Result<Value, Refusal>
    requires { (rows ≤ room) × (room ≤ 4096) × (room * 4 ≤ length table.now) }
    ensures { result ≡ lookIn (row_at room table.now) rows text.now r key.now }
{
    match member::find(table, room, rows, text, r, key) {
        Some(member) => lookup_answer::row_answer(table, room, text, member.value),
        None => Err(Refusal::NoMember),
    }
}

// What the member with a key answers in the Struct of row r, for any table with a stated number of rows, its texts in the text bytes.
pub fn lookup(
    table: &[u32],
    rows: usize,
    text: &[u8],
    r: usize,
    key: &[u8],
) -> Result<Value, Refusal>
    ensures { result ≡ lookupIn table.now rows text.now r key.now }
{
    if !shape::writable(table, rows, text) {
        return Err(Refusal::NotWritable);
    }
    let room = table::room_of(table.len());
    look(table, room, rows, text, r, key)
}
