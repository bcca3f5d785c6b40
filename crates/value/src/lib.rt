// Reading a Value. An Array's items may be Arrays or Structs, and a Struct's values likewise: `read_value` reads a Value, `read_values` the
// values of an Array and `read_pairs` the pairs of a Struct; they call one another in a cycle, in which `deep`, the nesting left, falls at
// each Array and Struct, and the bytes left at each item. The keys of all Structs are noted in the lent words `notes`.
// Items that hold no others are read in the loops, without a call of the cycle, by `scalar::read_scalar`, which the compiler makes part of
// them while it is small; so `read_value` calls what that calls: `read_sized`, called once, would become part of it.
#![tactic(auto)]

ghost use Rattle.std.specs.Prelude.{◌≡◌, true, false, ◌+◌, ◌<◌, min, length, get_or};
ghost use Rattle.draft.specs.Read.{value};
ghost use Rattle.codebook.specs.Words.{book_of};
ghost use Rattle.member_keys.specs.Contract.{Prepared, Done};
ghost use Rattle.heads.specs.Items.{entries};

use draft::Refusal;
use item::{Reached, Step};

// The Value at `at`.
#[cycle(read_pairs_read_value_read_values)]
pub fn read_value(
    s: &[u8],
    at: usize,
    row: usize,
    deep: usize,
    room: usize,
    table: &mut [u32],
    book: &mut [u32],
    notes: &mut [u16],
) -> Step
    requires { Prepared s.now at row room table.old book.old notes.old }
    ensures { Done (value s.now room deep at row (book_of book.old)) s.now room (at + 1) row table.old table.new book.new notes.old notes.new result }
{
    if s.len() <= at {
        return item::refuse(Refusal::Ended, at);
    }
    if heads::holds_items(s[at]) {
        heads::read_head(s, at, row, deep, room)?;
        let n = item::unsigned(s, at + 1);
        if s[at] == b'S' {
            let step = read_pairs(s, at + 5, row + 1, deep - 1, n, room, table, book, notes);
            return item::close(step, 10, n as u32, row, room, table);
        }
        let step = read_values(s, at + 5, row + 1, deep - 1, n, room, table, book, notes);
        return item::close(step, 9, n as u32, row, room, table);
    }
    if scalar::is_fixed(s[at]) {
        return scalar::read_fixed(s, at, row, room, table, book);
    }
    scalar::step_of(scalar::read_sized(s, at, row, room, table, book))
}

// n values, one after the other.
#[cycle(read_pairs_read_value_read_values)]
fn read_values(
    s: &[u8],
    at: usize,
    row: usize,
    deep: usize,
    n: usize,
    room: usize,
    table: &mut [u32],
    book: &mut [u32],
    notes: &mut [u16],
) -> Step
    requires { Prepared s.now at row room table.old book.old notes.old }
    ensures { Done (entries s.now room false (value s.now room deep) n at row (book_of book.old)) s.now room (at + min n 1) row table.old table.new book.new notes.old notes.new result }
{
    let mut left = n;
    let mut next = at;
    let mut free = row;
    while 0 < left {
        if s.len() <= next {
            return item::refuse(Refusal::Ended, next);
        }
        if heads::holds_items(s[next]) {
            let step = read_value(s, next, free, deep, room, table, book, notes)?;
            next = step.at;
            free = step.row;
            left -= 1;
        } else {
            let step = scalar::read_scalar(s, next, free, room, table, book)?;
            next = step.at;
            free = step.row;
            left -= 1;
        }
    }
    Ok(Reached {
        at: next,
        row: free,
    })
}

// n pairs, one after the other: each a key, and its value. Their Struct is known to the notes by the row where they begin.
#[cycle(read_pairs_read_value_read_values)]
fn read_pairs(
    s: &[u8],
    at: usize,
    row: usize,
    deep: usize,
    n: usize,
    room: usize,
    table: &mut [u32],
    book: &mut [u32],
    notes: &mut [u16],
) -> Step
    requires { (0 < row) × Prepared s.now at row room table.old book.old notes.old }
    ensures { Done (entries s.now room true (value s.now room deep) n at row (book_of book.old)) s.now room (at + min n 1) row table.old table.new book.new notes.old notes.new result }
{
    let mut pairs = n;
    let mut next = at;
    let mut free = row;
    while 0 < pairs {
        let key = member_keys::read_key(s, next, free, room, table, book, notes, row)?;
        let here = key.at;
        if s.len() <= here {
            return item::refuse(Refusal::Ended, here);
        }
        if heads::holds_items(s[here]) {
            let step = read_value(s, here, key.row, deep, room, table, book, notes)?;
            next = step.at;
            free = step.row;
            pairs -= 1;
        } else {
            let step = scalar::read_scalar(s, here, key.row, room, table, book)?;
            next = step.at;
            free = step.row;
            pairs -= 1;
        }
    }
    Ok(Reached {
        at: next,
        row: free,
    })
}

// The Array at `at`.
pub fn read_array(
    s: &[u8],
    at: usize,
    row: usize,
    deep: usize,
    room: usize,
    table: &mut [u32],
    book: &mut [u32],
    notes: &mut [u16],
) -> Step
    requires { (at < length s.now) × (get_or s.now at 0 ≡ 65) × Prepared s.now at row room table.old book.old notes.old }
    ensures { Done (value s.now room deep at row (book_of book.old)) s.now room (at + 1) row table.old table.new book.new notes.old notes.new result }
{
    read_value(s, at, row, deep, room, table, book, notes)
}
