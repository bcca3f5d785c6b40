// The rows of items that hold others: Others, Arrays and Structs. `walk_items` walks the values of an Array or the pairs of a Struct, and
// `walk_contents` what one of them holds; they call one another in a cycle, in which `deep`, the nesting left, falls at each Array and
// Struct. The keys of all Structs are noted in the lent words `notes`. Items that hold no others are walked in the loop: a function of a
// cycle is never inlined.
#![tactic(auto)]

ghost use Rattle.std.specs.Prelude.{◌≡◌, true, ◌+◌, ◌<◌, length};
ghost use Rattle.draft.specs.Rows.{item_of};
ghost use Rattle.draft.specs.Table.{row_at};
ghost use Rattle.draft.specs.Read.{text_of};
ghost use Rattle.draft.specs.Writable.{content_item, only, name, other_item, item, value, nested, pair, array_item, struct_item};
ghost use Rattle.extents.specs.Asked.{Ready, Walkable};
ghost use Rattle.keys.specs.Notes.{named};
ghost use Rattle.key_rows.specs.Contract.{Prepared, Done};
ghost use Rattle.containers.specs.Items.{holds_items, entries};

use draft::{Content, Item, Row};

// The kinds of an Array's row and of a Struct's.
const ARRAY: u32 = 9;

const STRUCT: u32 = 10;

// The text of row r, or as much of it as lies in the text bytes.
fn row_text<'a>(table: &[u32], room: usize, rows: usize, text: &'a [u8], r: usize) -> &'a [u8]
    requires { Ready rows room (length table.now) × (r < rows) }
    ensures { result.now ≡ text_of text.now (row_at room table.now r) }
{
    let row = table::get_row(table, room, r);
    content::part(text, row.a as usize, row.b as usize)
}

// An Other's name.
fn walk_name(
    table: &[u32],
    room: usize,
    rows: usize,
    text: &[u8],
    good: usize,
    r: usize,
) -> Option<usize>
    requires { Walkable text.now room rows table.now good }
    ensures { result ≡ name (row_at room table.now) rows text.now r }
{
    let next = extents::walk_string(table, room, rows, text, good, r)?;
    let verdict = content::judge_name(row_text(table, room, rows, text, r));
    match verdict {
        Ok(()) => Some(next),
        Err(_) => None,
    }
}

// An Other's name and its Binary.
fn walk_name_and_binary(
    table: &[u32],
    room: usize,
    rows: usize,
    text: &[u8],
    good: usize,
    r: usize,
) -> Option<usize>
    requires { Walkable text.now room rows table.now good }
    ensures { result ≡ pair (name (row_at room table.now) rows text.now) (only (row_at room table.now) rows text.now 8 (content_item text.now Content.Binary)) r }
{
    let next = walk_name(table, room, rows, text, good, r)?;
    extents::walk_only(table, room, rows, text, good, Content::Binary, next)
}

fn walk_other(
    table: &[u32],
    room: usize,
    rows: usize,
    text: &[u8],
    good: usize,
    row: Row,
    r: usize,
) -> Option<usize>
    requires { Walkable text.now room rows table.now good × (r < 4096) }
    ensures { result ≡ other_item (row_at room table.now) rows text.now row r }
{
    let next = walk_name_and_binary(table, room, rows, text, good, r + 1);
    row_ends::close_holding(2, row, next)
}

// The Array or the Struct of row r.
#[cycle(walk_contents_walk_items)]
fn walk_contents(
    table: &[u32],
    room: usize,
    rows: usize,
    text: &[u8],
    good: usize,
    deep: usize,
    row: Row,
    r: usize,
    notes: &mut [u16],
) -> Option<usize>
    requires { (holds_items row.kind ≡ true) × (r < 4096) × Prepared text.now room rows table.now good r notes.old }
    ensures { Done (item (row_at room table.now) rows text.now (item_of row.kind) (nested (row_at room table.now) rows text.now deep) row r) (named text.now room table.now) notes.old notes.new r result }
{
    if deep == 0 {
        return None;
    }
    let keyed = row.kind == STRUCT;
    let n = row.b as usize;
    let next = walk_items(
        table,
        room,
        rows,
        text,
        good,
        deep - 1,
        n,
        keyed,
        r + 1,
        notes,
    );
    row_ends::close_over(row, next)
}

// n items, one after the other, each behind its key if they have keys. Their Struct is known to the notes by the row where they begin.
#[cycle(walk_contents_walk_items)]
fn walk_items(
    table: &[u32],
    room: usize,
    rows: usize,
    text: &[u8],
    good: usize,
    deep: usize,
    n: usize,
    keyed: bool,
    first: usize,
    notes: &mut [u16],
) -> Option<usize>
    requires { Prepared text.now room rows table.now good first notes.old }
    ensures { Done (entries (row_at room table.now) rows text.now keyed (value (row_at room table.now) rows text.now deep) n first) (named text.now room table.now) notes.old notes.new first result }
{
    let mut here = first;
    for _i in 0..n {
        let at = key_rows::walk_key_if(keyed, table, room, rows, text, good, here, notes, first)?;
        if rows <= at {
            return None;
        }
        let row = table::get_row(table, room, at);
        here = match draft::item_of(row.kind) {
            Item::Integer => row_ends::walk_integer(row, at)?,
            Item::Boolean => row_ends::walk_boolean(row, at)?,
            Item::Content(content) => extents::walk_content(text, content, row, at, good)?,
            Item::Other => walk_other(table, room, rows, text, good, row, at)?,
            Item::Array | Item::Struct => {
                walk_contents(table, room, rows, text, good, deep, row, at, notes)?
            }
            _ => return None,
        };
    }
    Some(here)
}

// The Value of row r: one item without a key.
pub fn walk_value(
    table: &[u32],
    room: usize,
    rows: usize,
    text: &[u8],
    good: usize,
    deep: usize,
    r: usize,
    notes: &mut [u16],
) -> Option<usize>
    requires { Prepared text.now room rows table.now good r notes.old }
    ensures { Done (value (row_at room table.now) rows text.now deep r) (named text.now room table.now) notes.old notes.new r result }
{
    walk_items(table, room, rows, text, good, deep, 1, false, r, notes)
}

// An item of a kind that holds items, where nothing else is allowed.
fn walk_kind(
    kind: u32,
    table: &[u32],
    room: usize,
    rows: usize,
    text: &[u8],
    good: usize,
    deep: usize,
    r: usize,
    notes: &mut [u16],
) -> Option<usize>
    requires { (holds_items kind ≡ true) × Prepared text.now room rows table.now good r notes.old }
    ensures { Done (only (row_at room table.now) rows text.now kind (item (row_at room table.now) rows text.now (item_of kind) (nested (row_at room table.now) rows text.now deep)) r) (named text.now room table.now) notes.old notes.new r result }
{
    if rows <= r {
        return None;
    }
    let row = table::get_row(table, room, r);
    if row.kind == kind {
        walk_contents(table, room, rows, text, good, deep, row, r, notes)
    } else {
        None
    }
}

// An Array, where nothing else is allowed.
pub fn walk_array(
    table: &[u32],
    room: usize,
    rows: usize,
    text: &[u8],
    good: usize,
    deep: usize,
    r: usize,
    notes: &mut [u16],
) -> Option<usize>
    requires { Prepared text.now room rows table.now good r notes.old }
    ensures { Done (only (row_at room table.now) rows text.now 9 (array_item (nested (row_at room table.now) rows text.now deep)) r) (named text.now room table.now) notes.old notes.new r result }
{
    walk_kind(ARRAY, table, room, rows, text, good, deep, r, notes)
}

// A Struct, where nothing else is allowed.
pub fn walk_struct(
    table: &[u32],
    room: usize,
    rows: usize,
    text: &[u8],
    good: usize,
    deep: usize,
    r: usize,
    notes: &mut [u16],
) -> Option<usize>
    requires { Prepared text.now room rows table.now good r notes.old }
    ensures { Done (only (row_at room table.now) rows text.now 10 (struct_item (row_at room table.now) rows text.now (nested (row_at room table.now) rows text.now deep)) r) (named text.now room table.now) notes.old notes.new r result }
{
    walk_kind(STRUCT, table, room, rows, text, good, deep, r, notes)
}
