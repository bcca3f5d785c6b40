// The strings of a table's rows: their rows collected, and each string put into an output as it is sent. Strings are numbered in row
// order; of string j a lent word has the row.
#![tactic(auto)]

ghost use Rattle.std.specs.Prelude.{◌≤◌, length};
ghost use Rattle.draft.specs.Table.{row_at};
ghost use Rattle.draft.specs.Written.{string_bytes};
ghost use Rattle.extents.specs.Asked.{Ready};
ghost use Rattle.buckets.specs.Numbered.{numbered_text, Through};
ghost use Rattle.positions.specs.Contract.{told, Ready as Told};
ghost use Rattle.output.specs.Contract.{Tried};
ghost use Rattle.sending.specs.Contract.{Collected, Takes};

use positions::Sending;

// The row of each string, in row order, and how many strings there are.
pub fn collect(table: &[u32], room: usize, rows: usize, strings: &mut [u16]) -> usize
    requires { Ready rows room (length table.now) × (rows ≤ length strings.old) }
    ensures { Collected (row_at room table.now) rows strings.new result }
{
    let mut n = 0;
    for r in 0..rows {
        let row = table::get_row(table, room, r);
        if row.kind == 11 {
            strings[n] = r as u16;
            n += 1;
        }
    }
    n
}

// How many bytes string j takes.
pub fn string_length(
    table: &[u32],
    room: usize,
    text: &[u8],
    strings: &[u16],
    firsts: &[u16],
    spots: &[u16],
    j: usize,
) -> usize
    requires { Told firsts.now spots.now j × Through room (length table.now) j strings.now × (length text.now ≤ 65536) }
    ensures { Takes (row_at room table.now) text.now strings.now firsts.now spots.now j result }
{
    let t = buckets::text_of(table, room, strings, text, j);
    match positions::sending_of(firsts, spots, j) {
        Sending::Regular => 5 + t.len(),
        Sending::Recorded(_) => 6 + t.len(),
        Sending::Recalled(_) => 2,
    }
}

// String j, to the front of the output, if it takes at most so many bytes.
pub fn put_string(
    out: &mut [u8],
    most: usize,
    table: &[u32],
    room: usize,
    text: &[u8],
    strings: &[u16],
    firsts: &[u16],
    spots: &[u16],
    j: usize,
) -> usize
    requires { Told firsts.now spots.now j × Through room (length table.now) j strings.now × (length text.now ≤ 65536) × (most ≤ length out.old) }
    ensures { Tried (string_bytes (told firsts.now spots.now j (numbered_text (row_at room table.now) strings.now text.now j))) most out.old out.new result }
{
    let t = buckets::text_of(table, room, strings, text, j);
    match positions::sending_of(firsts, spots, j) {
        Sending::Regular => output::try_long(out, most, b'U', t),
        Sending::Recorded(p) => output::try_recorded(out, most, p, t),
        Sending::Recalled(p) => output::try_two(out, most, b'<', p),
    }
}
