// Rows in a lent table of words: its room, where a word of a row stands, a row stored and fetched, and clearing.
// A table with room for `room` rows has four columns of so many words, kinds, a's, b's and ends; `room` is at most 4,096.
#![tactic(auto)]

ghost use Rattle.std.specs.Prelude.{◌≡◌, ◌+◌, ◌*◌, ◌≤◌, ◌<◌, length, replicate};
ghost use Rattle.draft.specs.Table.{room_of, place, set_row, row_at};

use draft::Row;

// The most rows that any table has room for.
pub const MOST_ROWS: usize = 4096;

// How many rows a table of so many words has room for.
pub fn room_of(words: usize) -> usize
    ensures { result ≡ room_of 4096 words }
{
    (words / 4).min(MOST_ROWS)
}

// Where word j of row r stands.
fn word(room: usize, r: usize, j: usize) -> usize
    requires { (r < room) × (j < 4) × (room ≤ 4096) }
    ensures { (result ≡ place room r j) × (result < room * 4) }
{
    room * j + r
}

pub fn put_row(table: &mut [u32], room: usize, r: usize, row: Row)
    requires { (r < room) × (room ≤ 4096) × (room * 4 ≤ length table.old) }
    ensures { table.new ≡ set_row room table.old r row }
{
    let kind = word(room, r, 0);
    table[kind] = row.kind;
    let a = word(room, r, 1);
    table[a] = row.a;
    let b = word(room, r, 2);
    table[b] = row.b;
    let end = word(room, r, 3);
    table[end] = row.end;
}

pub fn get_row(table: &[u32], room: usize, r: usize) -> Row
    requires { (r < room) × (room ≤ 4096) × (room * 4 ≤ length table.now) }
    ensures { result ≡ row_at room table.now r }
{
    let kind = word(room, r, 0);
    let a = word(room, r, 1);
    let b = word(room, r, 2);
    let end = word(room, r, 3);
    Row {
        kind: table[kind],
        a: table[a],
        b: table[b],
        end: table[end],
    }
}

// All words zero.
pub fn clear(words: &mut [u32])
    ensures { words.new ≡ replicate (length words.old) 0 }
{
    words.fill(0);
}
