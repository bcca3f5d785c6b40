// Rows by the byte order of their texts: the text of a row, whether it is before another's, and few rows put in order by insertion. Many are
// put in order by `merging`. Numbers are moved, no text is.
#![tactic(auto, using(crate::proofs::Preceding::preceding, crate::proofs::Settling::settling, crate::proofs::Settling::sorting))]

ghost use Rattle.std.specs.Prelude.{◌≡◌, ◌*◌, ◌≤◌, ◌<◌, length, get_or};
ghost use Rattle.draft.specs.Table.{row_at};
ghost use Rattle.sorting.specs.Sorting.{key_text, before, settled, sorted};

// The text of row r; a row that the table has no room for has an empty one.
pub fn key_text<'a>(table: &[u32], room: usize, text: &'a [u8], r: usize) -> &'a [u8]
    requires { (room ≤ 4096) × (room * 4 ≤ length table.now) }
    ensures { result.now ≡ key_text room (row_at room table.now) text.now r }
{
    if room <= r {
        return &text[0..0];
    }
    let row = table::get_row(table, room, r);
    content::part(text, row.a as usize, row.b as usize)
}

// Whether the text of row k is before that of row j.
pub fn precedes(table: &[u32], room: usize, text: &[u8], k: usize, j: usize) -> bool
    requires { (room ≤ 4096) × (room * 4 ≤ length table.now) }
    ensures { result ≡ before (key_text room (row_at room table.now) text.now) k j }
{
    order::compare(
        key_text(table, room, text, k),
        key_text(table, room, text, j),
    )
    .is_lt()
}

// Whether the text of row k is before that of the row at place j.
pub fn precedes_at(
    table: &[u32],
    room: usize,
    text: &[u8],
    k: usize,
    rows: &[u32],
    j: usize,
) -> bool
    requires { (room ≤ 4096) × (room * 4 ≤ length table.now) × (j < length rows.now) }
    ensures { result ≡ before (key_text room (row_at room table.now) text.now) k (get_or rows.now j 0) }
{
    precedes(table, room, text, k, rows[j] as usize)
}

// The first row moved behind those that it is not before, up to the first that it is before.
fn settle(table: &[u32], room: usize, text: &[u8], rows: &mut [u32])
    requires { (room ≤ 4096) × (room * 4 ≤ length table.now) × (0 < length rows.old) }
    ensures { rows.new ≡ settled (key_text room (row_at room table.now) text.now) rows.old }
{
    let first = rows[0];
    let last = rows.len() - 1;
    for i in 0..last {
        if precedes_at(table, room, text, first as usize, rows, i + 1) {
            rows[i] = first;
            return;
        }
        rows[i] = rows[i + 1];
    }
    rows[last] = first;
}

// Few rows put in order: from the last to the first, each among those behind it. Rows that are in order are compared once each.
pub fn sort_few(table: &[u32], room: usize, text: &[u8], rows: &mut [u32])
    requires { (room ≤ 4096) × (room * 4 ≤ length table.now) }
    ensures { rows.new ≡ sorted (key_text room (row_at room table.now) text.now) rows.old }
{
    for i in (0..rows.len()).rev() {
        settle(table, room, text, &mut rows[i..]);
    }
}
