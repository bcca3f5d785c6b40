// Reading glyph objects. A list's objects may be lists, dicts, extensions or nodes, and so on: `read_object` reads an object by its letter,
// `read_many` what a list or a dict holds, `read_entry` one thing of it, `read_thing` that without its key, `read_three` what an extension or a
// node holds, and `read_next` one object of it behind blanks; they call one another in a cycle, in which `deep`, the nesting left, falls at each
// object with children, and the bytes left at each thing. The keys of all dicts are noted in the lent words `notes`.
#![tactic(auto)]

ghost use Rattle.std.specs.Prelude.{◌≡◌, ◌+◌, ◌-◌, ◌≤◌, ◌<◌};
ghost use Rattle.glyph.specs.Read.{object};
ghost use Rattle.glyph_keys.specs.Contract.{Prepared, Done};
ghost use Rattle.glyph_objects.specs.Contract.{Begun, Nexted, EntryDone, Closable, Closed, many_of, three_of};

use draft::Row;
use glyph::{Edition, Letter, Many, Refusal, Three, Want};
use glyph_item::Step;
use item::Reached;

// The object at `at`, if it may stand there.
#[cycle(objects)]
pub fn read_object(
    s: &[u8],
    at: usize,
    row: usize,
    edition: Edition,
    want: Want,
    deep: usize,
    room: usize,
    table: &mut [u32],
    notes: &mut [u16],
) -> Step
    requires { Prepared s.now at row room table.old notes.old }
    ensures { Done (object s.now room edition deep want at row) s.now room (at + 1) row table.old table.new notes.old notes.new result }
{
    if s.len() <= at {
        return item::refuse(Refusal::Ended, at);
    }
    match glyph_bytes::letter_for(edition, want, s[at]) {
        Letter::Leaf(leaf) => glyph_leaves::read_leaf(s, at, row, leaf, room, table),
        Letter::Unknown => item::refuse(Refusal::UnexpectedByte, at),
        Letter::Many(many) => {
            if deep == 0 {
                return item::refuse(Refusal::TooDeep, at);
            }
            if room <= row {
                return item::refuse(Refusal::NoRow, at);
            }
            read_many(s, at, row, edition, many, deep - 1, room, table, notes)
        }
        Letter::Three(three) => {
            if deep == 0 {
                return item::refuse(Refusal::TooDeep, at);
            }
            if room <= row {
                return item::refuse(Refusal::NoRow, at);
            }
            read_three(s, at, row, edition, three, deep - 1, room, table, notes)
        }
    }
}

// Blanks and an object, behind what was read.
#[cycle(objects)]
fn read_next(
    s: &[u8],
    before: Reached,
    edition: Edition,
    want: Want,
    deep: usize,
    room: usize,
    table: &mut [u32],
    notes: &mut [u16],
) -> Step
    requires { Prepared s.now before.at before.row room table.old notes.old }
    ensures { Nexted s.now room edition deep want before table.old table.new notes.old notes.new result }
{
    let at = glyph_bytes::past_blanks(s, before.at);
    if want == Want::Text {
        return glyph_keys::read_name(s, at, before.row, room, table);
    }
    read_object(s, at, before.row, edition, want, deep, room, table, notes)
}

// An object that a list or a dict holds. One without children is read here, so that it takes no call of the cycle.
#[cycle(objects)]
fn read_thing(
    s: &[u8],
    at: usize,
    row: usize,
    edition: Edition,
    deep: usize,
    room: usize,
    table: &mut [u32],
    notes: &mut [u16],
) -> Step
    requires { Prepared s.now at row room table.old notes.old }
    ensures { Done (object s.now room edition deep Want.Any at row) s.now room (at + 1) row table.old table.new notes.old notes.new result }
{
    if glyph_bytes::leaf_at(s, at) {
        return glyph_leaves::read_in_run(s, at, row, room, table);
    }
    read_object(s, at, row, edition, Want::Any, deep, room, table, notes)
}

// One thing of a list or a dict: an object, behind its key if there are keys.
#[cycle(objects)]
fn read_entry(
    s: &[u8],
    at: usize,
    row: usize,
    edition: Edition,
    keyed: bool,
    deep: usize,
    room: usize,
    table: &mut [u32],
    notes: &mut [u16],
    owner: usize,
) -> Step
    requires { (0 < owner) × (owner ≤ row) × Prepared s.now at row room table.old notes.old }
    ensures { EntryDone keyed s.now room edition deep owner at row table.old table.new notes.old notes.new result }
{
    let key = glyph_keys::read_key_if(keyed, s, at, row, room, table, notes, owner)?;
    read_thing(s, key.at, key.row, edition, deep, room, table, notes)
}

// The things of the list or the dict whose letter stands at `at`, until its `;`; then its own row.
#[cycle(objects)]
fn read_many(
    s: &[u8],
    at: usize,
    row: usize,
    edition: Edition,
    many: Many,
    deep: usize,
    room: usize,
    table: &mut [u32],
    notes: &mut [u16],
) -> Step
    requires { Begun s.now at row room × Prepared s.now at row room table.old notes.old }
    ensures { Done (many_of s.now many (object s.now room edition deep) at row) s.now room (at + 1) row table.old table.new notes.old notes.new result }
{
    let keyed = glyph_bytes::is_keyed(many);
    let owner = row + 1;
    let mut free = row + 1;
    let mut n: usize = 0;
    let mut here = glyph_bytes::past_blanks(s, at + 1);
    while glyph_bytes::goes_on(s, here) {
        let thing = read_entry(
            s, here, free, edition, keyed, deep, room, table, notes, owner,
        )?;
        here = glyph_bytes::past_blanks(s, thing.at);
        free = thing.row;
        n += 1;
    }
    table::put_row(
        table,
        room,
        row,
        Row {
            kind: glyph_bytes::many_kind(many),
            a: 0,
            b: n as u32,
            end: free as u32,
        },
    );
    Ok(Reached {
        at: here + 1,
        row: free,
    })
}

// The `;` behind the three objects that were read; then the row of what holds them. It is to be compiled into its one caller.
#[inline]
fn end_three(
    s: &[u8],
    before: Reached,
    kind: u32,
    row: usize,
    room: usize,
    table: &mut [u32],
) -> Step
    requires { Closable s.now before row room table.old }
    ensures { Closed s.now before kind row room table.old table.new result }
{
    let at = glyph_bytes::past_blanks(s, before.at);
    if s.len() <= at {
        return item::refuse(Refusal::Ended, at);
    }
    if s[at] != b';' {
        return item::refuse(Refusal::UnexpectedByte, at);
    }
    let end = before.row;
    table::put_row(
        table,
        room,
        row,
        Row {
            kind,
            a: 0,
            b: 3,
            end: end as u32,
        },
    );
    Ok(Reached {
        at: at + 1,
        row: end,
    })
}

// The name, the attributes and the content of the extension or the node whose letter stands at `at`; its `;`; and its own row.
#[cycle(objects)]
fn read_three(
    s: &[u8],
    at: usize,
    row: usize,
    edition: Edition,
    three: Three,
    deep: usize,
    room: usize,
    table: &mut [u32],
    notes: &mut [u16],
) -> Step
    requires { Begun s.now at row room × Prepared s.now at row room table.old notes.old }
    ensures { Done (three_of s.now three (object s.now room edition deep) at row) s.now room (at + 1) row table.old table.new notes.old notes.new result }
{
    let name = glyph_bytes::name_want(three);
    let attributes = glyph_bytes::attributes_want(three);
    let mut reached = Reached {
        at: at + 1,
        row: row + 1,
    };
    for want in [name, attributes, Want::Any] {
        reached = read_next(s, reached, edition, want, deep, room, table, notes)?;
    }
    end_three(s, reached, glyph_bytes::three_kind(three), row, room, table)
}
