// Whether a table is writable: its rows are walked as a Call or a Response, from the first row to the last that is stated.
#![tactic(auto)]

ghost use Rattle.std.specs.Prelude.{◌≡◌, length, replicate};
ghost use Rattle.draft.specs.Table.{row_at};
ghost use Rattle.draft.specs.Writable.{only, string, array_item, nested, pair, fault_struct, call_or_response, writable_to, writable as writable_by};
ghost use Rattle.extents.specs.Asked.{Walkable};
ghost use Rattle.key_rows.specs.Contract.{Entries, Prepared};

use draft::Item;

// The most bytes that the texts may lie in.
pub const MOST_BYTES: usize = 65536;

// A fault's Struct, and what its rule says.
fn walk_fault_struct(
    table: &[u32],
    room: usize,
    rows: usize,
    text: &[u8],
    good: usize,
    deep: usize,
    r: usize,
    notes: &mut [u16],
) -> Option<usize>
    requires { Prepared text.now room rows table.now good r notes.old }
    ensures { result ≡ fault_struct (row_at room table.now) rows text.now deep r }
{
    let next = containers::walk_struct(table, room, rows, text, good, deep, r, notes)?;
    if rows < next {
        return None;
    }
    let verdict = fault::judge(table, room, text, r, next);
    match verdict {
        Ok(()) => Some(next),
        Err(_) => None,
    }
}

// A method and an Array.
fn walk_method_and_array(
    table: &[u32],
    room: usize,
    rows: usize,
    text: &[u8],
    good: usize,
    deep: usize,
    r: usize,
    notes: &mut [u16],
) -> Option<usize>
    requires { Prepared text.now room rows table.now good r notes.old }
    ensures { result ≡ pair (string (row_at room table.now) rows text.now) (only (row_at room table.now) rows text.now 9 (array_item (nested (row_at room table.now) rows text.now deep))) r }
{
    let next = extents::walk_string(table, room, rows, text, good, r)?;
    containers::walk_array(table, room, rows, text, good, deep, next, notes)
}

fn walk_call_or_response(
    table: &[u32],
    room: usize,
    rows: usize,
    text: &[u8],
    good: usize,
    deep: usize,
    r: usize,
    notes: &mut [u16],
) -> Option<usize>
    requires { Walkable text.now room rows table.now good × Entries rows (length notes.old) × (notes.old ≡ replicate (length notes.old) 0) }
    ensures { result ≡ call_or_response (row_at room table.now) rows text.now deep r }
{
    if rows <= r {
        return None;
    }
    let row = table::get_row(table, room, r);
    let item = draft::item_of(row.kind);
    match item {
        Item::Call => {
            let next = walk_method_and_array(table, room, rows, text, good, deep, r + 1, notes);
            row_ends::close_holding(2, row, next)
        }
        Item::Response => {
            let next = containers::walk_value(table, room, rows, text, good, deep, r + 1, notes);
            row_ends::close_holding(1, row, next)
        }
        Item::Fault => {
            let next = walk_fault_struct(table, room, rows, text, good, deep, r + 1, notes);
            row_ends::close_holding(1, row, next)
        }
        _ => None,
    }
}

// The Call or Response of row 0, with notes of N words on keys: three for each of the stated rows.
fn walk_noted<const N: usize>(
    table: &[u32],
    room: usize,
    rows: usize,
    text: &[u8],
    good: usize,
    deep: usize,
) -> Option<usize>
    requires { Walkable text.now room rows table.now good × Entries rows N }
    ensures { result ≡ call_or_response (row_at room table.now) rows text.now deep 0 }
{
    let mut notes = [0u16; N];
    walk_call_or_response(table, room, rows, text, good, deep, 0, &mut notes)
}

// The same, with notes for 64 rows, 1,024 or as many as a table may have: laying out the largest takes longer than walking a small table.
fn walk_first(
    table: &[u32],
    room: usize,
    rows: usize,
    text: &[u8],
    good: usize,
    deep: usize,
) -> Option<usize>
    requires { Walkable text.now room rows table.now good }
    ensures { result ≡ call_or_response (row_at room table.now) rows text.now deep 0 }
{
    if rows <= 64 {
        return walk_noted::<192>(table, room, rows, text, good, deep);
    }
    if rows <= 1024 {
        return walk_noted::<3072>(table, room, rows, text, good, deep);
    }
    walk_noted::<12288>(table, room, rows, text, good, deep)
}

// Whether a table with a stated number of rows is writable, its texts lying in the text bytes, with Arrays and Structs nested to at most so deep.
pub fn writable_to(table: &[u32], rows: usize, text: &[u8], deep: usize) -> bool
    ensures { result ≡ writable_to deep table.now rows text.now }
{
    if text.len() > MOST_BYTES || rows == 0 || rows > table::MOST_ROWS || table.len() < rows * 4 {
        return false;
    }
    let room = table::room_of(table.len());
    let good = long_texts::checked_before(table, room, rows, text);
    walk_first(table, room, rows, text, good, deep) == Some(rows)
}

// Whether a table is writable, nested to at most 32: one that is looked at, and not written.
pub fn writable(table: &[u32], rows: usize, text: &[u8]) -> bool
    ensures { result ≡ writable_by table.now rows text.now }
{
    writable_to(table, rows, text, draft::MOST_NESTING)
}
