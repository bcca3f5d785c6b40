// The long Strings of a table, all checked before its rows are walked: many may lie in the same text bytes, and those are checked once.
#![tactic(auto)]

ghost use Rattle.std.specs.Prelude.{true, ◌+◌, ◌≤◌, ◌<◌, length};
ghost use Rattle.draft.specs.Table.{row_at};
ghost use Rattle.passages.specs.Notes.{Notes};
ghost use Rattle.extents.specs.Asked.{Ready, Checked};
ghost use Rattle.long_texts.specs.Fine.{Found, Counted};

use draft::Row;

// Strings of fewer bytes altogether are checked one by one, as the rows are walked.
const MANY_BYTES: usize = 8388608;

// Whether a row is no long String, or a fine one.
fn is_fine(text: &[u8], row: Row, notes: &mut [u16]) -> bool
    requires { Notes text.now notes.old }
    ensures { Found text.now notes.new row result }
{
    if row.kind != 11 || row.b < asked::LONG {
        return true;
    }
    let from = row.a as usize;
    let n = row.b as usize;
    if text.len() < from || text.len() - from < n {
        return false;
    }
    passages::is_passage(text, from, from + n, notes)
}

// The number of rows before the first long String that is not fine.
fn count_good(table: &[u32], room: usize, rows: usize, text: &[u8], notes: &mut [u16]) -> usize
    requires { Ready rows room (length table.now) × Notes text.now notes.old }
    ensures { Counted (row_at room table.now) rows text.now result }
{
    for r in 0..rows {
        let row = table::get_row(table, room, r);
        if !is_fine(text, row, notes) {
            return r;
        }
    }
    rows
}

// The same, with the notes laid out here.
pub fn good_rows(table: &[u32], room: usize, rows: usize, text: &[u8]) -> usize
    requires { Ready rows room (length table.now) × (length text.now ≤ 65536) }
    ensures { Counted (row_at room table.now) rows text.now result }
{
    let mut words = [0u16; 256];
    let notes: &mut [u16] = &mut words;
    count_good(table, room, rows, text, notes)
}

// The rows whose long Strings need no check when they are walked: none, unless all Strings together may be very long.
pub fn checked_before(table: &[u32], room: usize, rows: usize, text: &[u8]) -> usize
    requires { Ready rows room (length table.now) × (length text.now ≤ 65536) }
    ensures { Checked (row_at room table.now) text.now result }
{
    if rows * text.len() < MANY_BYTES {
        return 0;
    }
    good_rows(table, room, rows, text)
}
