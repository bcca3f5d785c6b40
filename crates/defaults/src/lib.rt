// Job defaults behind a card: a text asked for by key is the card's if the card's Struct has the key, otherwise the defaults'. Any two tables may be
// given, each with its stated rows, its text bytes and a Struct's row; both are judged in every call.
#![tactic(auto, using(crate::proofs::Judging::holding, crate::proofs::Judging::entering, crate::proofs::Judging::judging))]

ghost use Rattle.std.specs.Prelude.{◌≡◌, ◌*◌, ◌≤◌, ◌<◌, length};
ghost use Rattle.draft.specs.Table.{row_at};
ghost use Rattle.choice.specs.Choosing.{Handed};
ghost use Rattle.defaults.specs.Defaults.{source, numbered_text, held_in, structs_then, chosen};

use choice::{Chosen, Held, Refusal};

// The kind of a String's row.
const STRING: u32 = 11;

// What the value of row r is to one who asks for a text.
fn text_at(table: &[u32], room: usize, r: u32) -> Held
    requires { (r < room) × (room ≤ 4096) × (room * 4 ≤ length table.now) }
    ensures { result ≡ numbered_text (row_at room table.now) r }
{
    let row = table::get_row(table, room, r as usize);
    if row.kind != STRING {
        return Held::NoText;
    }
    Held::Text {
        offset: row.a,
        length: row.b,
    }
}

// What the Struct of row r has under a key, in a table that was judged before.
fn held(table: &[u32], room: usize, rows: usize, text: &[u8], r: usize, key: &[u8]) -> Held
    requires { (rows ≤ room) × (room ≤ 4096) × (room * 4 ≤ length table.now) }
    ensures { result ≡ held_in (row_at room table.now) rows text.now r key.now }
{
    match member::find(table, room, rows, text, r, key) {
        Some(member) => text_at(table, room, member.value),
        None => Held::Absent,
    }
}

// Whose text it is, in two tables that were judged before.
fn choose_judged(
    table: &[u32],
    room: usize,
    rows: usize,
    text: &[u8],
    row: usize,
    defaults_table: &[u32],
    defaults_room: usize,
    defaults_rows: usize,
    defaults_text: &[u8],
    defaults_row: usize,
    key: &[u8],
) -> Result<Chosen, Refusal>
    requires { (rows ≤ room) × (room ≤ 4096) × (room * 4 ≤ length table.now) × (defaults_rows ≤ defaults_room) × (defaults_room ≤ 4096) × (defaults_room * 4 ≤ length defaults_table.now) }
    ensures { result ≡ structs_then (row_at room table.now) rows text.now row (row_at defaults_room defaults_table.now) defaults_rows defaults_text.now defaults_row key.now }
{
    if !member::is_struct(table, room, rows, row)
        || !member::is_struct(defaults_table, defaults_room, defaults_rows, defaults_row)
    {
        return Err(Refusal::NoMember);
    }
    let own = held(table, room, rows, text, row, key);
    let other = held(
        defaults_table,
        defaults_room,
        defaults_rows,
        defaults_text,
        defaults_row,
        key,
    );
    choice::prefer(own, other)
}

// Whose text it is and where it lies there, or why there is none.
pub fn choose(
    table: &[u32],
    rows: usize,
    text: &[u8],
    row: usize,
    defaults_table: &[u32],
    defaults_rows: usize,
    defaults_text: &[u8],
    defaults_row: usize,
    key: &[u8],
) -> Result<Chosen, Refusal>
    ensures { result ≡ chosen (source table.now rows text.now row) (source defaults_table.now defaults_rows defaults_text.now defaults_row) key.now }
{
    if !shape::writable(table, rows, text)
        || !shape::writable(defaults_table, defaults_rows, defaults_text)
    {
        return Err(Refusal::NotWritable);
    }
    choose_judged(
        table,
        table::room_of(table.len()),
        rows,
        text,
        row,
        defaults_table,
        table::room_of(defaults_table.len()),
        defaults_rows,
        defaults_text,
        defaults_row,
        key,
    )
}

// The text asked for: a part of the card's text bytes or of the defaults' text bytes. `number` is 0 or the refusal's, `from` 0 for the card and
// 1 for the defaults. Refused, it is the empty start of the card's bytes.
// Stays: the numbers are told beside the part, which is one on a refusal too (E9.refused_part).
pub fn text_of<'a>(
    table: &[u32],
    rows: usize,
    text: &'a [u8],
    row: usize,
    defaults_table: &[u32],
    defaults_rows: usize,
    defaults_text: &'a [u8],
    defaults_row: usize,
    key: &[u8],
    number: &mut u8,
    from: &mut u8,
) -> &'a [u8]
    ensures { Handed text.entry defaults_text.entry (chosen (source table.now rows text.now row) (source defaults_table.now defaults_rows defaults_text.now defaults_row) key.now) result number.new from.new }
{
    let choice = choose(
        table,
        rows,
        text,
        row,
        defaults_table,
        defaults_rows,
        defaults_text,
        defaults_row,
        key,
    );
    choice::hand(choice, text, defaults_text, number, from)
}
