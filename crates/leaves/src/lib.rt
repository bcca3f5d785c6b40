// Reading the items of one row that use no codebook: Integer, Boolean, Double, DateTime, Binary and a regular String.
// Assumes that the place is in the message and the rows fit the table.
#![tactic(auto)]

ghost use Rattle.std.specs.Prelude.{◌+◌, ◌*◌, ◌≤◌, ◌<◌, length};
ghost use Rattle.draft.specs.Read.{contents, integer_item, boolean_item, short_item, long_item};
ghost use Rattle.item.specs.Contract.{Fitting, Stored};

use draft::{Content, Refusal};
use item::Step;

// The item at `at` whose content is the n bytes at o, unless its rule refuses them.
pub fn put_contents(
    s: &[u8],
    at: usize,
    row: usize,
    content: Content,
    o: usize,
    n: usize,
    room: usize,
    table: &mut [u32],
) -> Step
    requires { (at < o) × (row < room) × (room ≤ 4096) × (room * 4 ≤ length table.old) × (length s.now ≤ 65536) }
    ensures { Stored (contents s.now room content o n at row) (length s.now) room (at + 1) row table.old table.new result }
{
    let verdict = content::inspect(content, s, o, n);
    match verdict {
        Err(refusal) => item::refuse(refusal, at),
        Ok(()) => Ok(item::put_leaf(
            row,
            o + n,
            draft::kind(content),
            o as u32,
            n as u32,
            room,
            table,
        )),
    }
}

pub fn read_integer(s: &[u8], at: usize, row: usize, room: usize, table: &mut [u32]) -> Step
    requires { (at < length s.now) × Fitting at row room (length s.now) (length table.old) }
    ensures { Stored (integer_item s.now room at row) (length s.now) room (at + 1) row table.old table.new result }
{
    if room <= row {
        return item::refuse(Refusal::NoRow, at);
    }
    if s.len() < at + 5 {
        return item::refuse(Refusal::Ended, at);
    }
    let bits = item::unsigned(s, at + 1);
    Ok(item::put_leaf(row, at + 5, 4, bits as u32, 0, room, table))
}

pub fn read_boolean(s: &[u8], at: usize, row: usize, a: u32, room: usize, table: &mut [u32]) -> Step
    requires { (at < length s.now) × Fitting at row room (length s.now) (length table.old) }
    ensures { Stored (boolean_item s.now room a at row) (length s.now) room (at + 1) row table.old table.new result }
{
    if room <= row {
        return item::refuse(Refusal::NoRow, at);
    }
    Ok(item::put_leaf(row, at + 1, 5, a, 0, room, table))
}

// A Double or a DateTime: a size byte, and its content.
pub fn read_short(
    s: &[u8],
    at: usize,
    row: usize,
    content: Content,
    room: usize,
    table: &mut [u32],
) -> Step
    requires { (at < length s.now) × Fitting at row room (length s.now) (length table.old) }
    ensures { Stored (short_item s.now room content at row) (length s.now) room (at + 1) row table.old table.new result }
{
    if room <= row {
        return item::refuse(Refusal::NoRow, at);
    }
    if s.len() < at + 2 {
        return item::refuse(Refusal::Ended, at);
    }
    let n = usize::from(s[at + 1]);
    put_contents(s, at, row, content, at + 2, n, room, table)
}

// A Binary or a regular String: a length, and its content.
pub fn read_long(
    s: &[u8],
    at: usize,
    row: usize,
    content: Content,
    room: usize,
    table: &mut [u32],
) -> Step
    requires { (at < length s.now) × Fitting at row room (length s.now) (length table.old) }
    ensures { Stored (long_item s.now room content at row) (length s.now) room (at + 1) row table.old table.new result }
{
    if room <= row {
        return item::refuse(Refusal::NoRow, at);
    }
    if s.len() < at + 5 {
        return item::refuse(Refusal::Ended, at);
    }
    let n = item::unsigned(s, at + 1);
    put_contents(s, at, row, content, at + 5, n, room, table)
}
