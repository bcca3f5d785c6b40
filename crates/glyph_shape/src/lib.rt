// Whether a table is writable for an edition: its rows are walked as one object, from the first row to the last that is stated.
#![tactic(auto)]

ghost use Rattle.std.specs.Prelude.{◌≡◌, length, replicate};
ghost use Rattle.draft.specs.Table.{row_at};
ghost use Rattle.extents.specs.Asked.{Walkable};
ghost use Rattle.key_rows.specs.Contract.{Entries};
ghost use Rattle.glyph_form.specs.Writable.{object, writable as writable_by};

use glyph::{Edition, Want};

// The most bytes that the texts may lie in.
pub const MOST_BYTES: usize = 65536;

// The root object, which row 0 begins, with notes that are all zeros.
fn walk_root(
    edition: Edition,
    table: &[u32],
    room: usize,
    rows: usize,
    text: &[u8],
    good: usize,
    deep: usize,
    notes: &mut [u16],
) -> Option<usize>
    requires { Walkable text.now room rows table.now good × Entries rows (length notes.old) × (notes.old ≡ replicate (length notes.old) 0) }
    ensures { result ≡ object (row_at room table.now) rows text.now edition deep Want.Any 0 }
{
    glyph_walks::walk_object(edition, table, room, rows, text, good, deep, 0, notes)
}

// The same, with notes of N words on keys: three for each of the stated rows.
fn walk_noted<const N: usize>(
    edition: Edition,
    table: &[u32],
    room: usize,
    rows: usize,
    text: &[u8],
    good: usize,
    deep: usize,
) -> Option<usize>
    requires { Walkable text.now room rows table.now good × Entries rows N }
    ensures { result ≡ object (row_at room table.now) rows text.now edition deep Want.Any 0 }
{
    let mut notes = [0u16; N];
    walk_root(edition, table, room, rows, text, good, deep, &mut notes)
}

// The same, with notes for 64 rows, 1,024 or as many as a table may have: laying out the largest takes longer than walking a small table.
fn walk_first(
    edition: Edition,
    table: &[u32],
    room: usize,
    rows: usize,
    text: &[u8],
    good: usize,
    deep: usize,
) -> Option<usize>
    requires { Walkable text.now room rows table.now good }
    ensures { result ≡ object (row_at room table.now) rows text.now edition deep Want.Any 0 }
{
    if rows <= 64 {
        return walk_noted::<192>(edition, table, room, rows, text, good, deep);
    }
    if rows <= 1024 {
        return walk_noted::<3072>(edition, table, room, rows, text, good, deep);
    }
    walk_noted::<12288>(edition, table, room, rows, text, good, deep)
}

// Whether a table with a stated number of rows is writable for the edition, its texts lying in the text bytes, with containers, extensions
// and nodes nested to at most so deep.
pub fn writable(edition: Edition, table: &[u32], rows: usize, text: &[u8], deep: usize) -> bool
    ensures { result ≡ writable_by edition deep table.now rows text.now }
{
    if text.len() > MOST_BYTES || rows == 0 || rows > table::MOST_ROWS || table.len() < rows * 4 {
        return false;
    }
    let room = table::room_of(table.len());
    let good = long_texts::checked_before(table, room, rows, text);
    walk_first(edition, table, room, rows, text, good, deep) == Some(rows)
}
