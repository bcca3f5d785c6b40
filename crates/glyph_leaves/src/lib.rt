// Reading the glyph objects without children by their letters: integers, unicode and bytearrays, T, F and N.
// Assumes that the place is in the message and the rows fit the table.
#![tactic(auto)]

ghost use Rattle.std.specs.Prelude.{◌+◌, ◌<◌, length, get_or};
ghost use Rattle.glyph.specs.Read.{opened, single, leaf_of};
ghost use Rattle.item.specs.Contract.{Fitting};
ghost use Rattle.glyph_bytes.specs.Leafs.{leaf_by};
ghost use Rattle.glyph_item.specs.Contract.{Did};
ghost use Rattle.glyph_integers.specs.Signs.{Slots};

use glyph::{Leaf, Refusal};
use glyph_item::Step;

// A letter and `;`.
#[tactic(auto, unfolding(glyph::specs::Read::single))]
fn read_single(
    s: &[u8],
    at: usize,
    row: usize,
    kind: u32,
    a: u32,
    room: usize,
    table: &mut [u32],
) -> Step
    requires { (at < length s.now) × Slots row room (length s.now) (length table.old) }
    ensures { Did (single s.now kind a at row) (length s.now) room (at + 1) row table.old table.new result }
{
    match s.get(at + 1) {
        None => item::refuse(Refusal::Ended, at),
        Some(b';') => Ok(item::put_leaf(row, at + 2, kind, a, 0, room, table)),
        Some(_) => item::refuse(Refusal::UnexpectedByte, at),
    }
}

// The object at `at`, whose letter is this leaf's.
pub fn read_leaf(
    s: &[u8],
    at: usize,
    row: usize,
    leaf: Leaf,
    room: usize,
    table: &mut [u32],
) -> Step
    requires { (at < length s.now) × Fitting at row room (length s.now) (length table.old) }
    ensures { Did (opened room at row (leaf_of s.now leaf at row)) (length s.now) room (at + 1) row table.old table.new result }
{
    if room <= row {
        return item::refuse(Refusal::NoRow, at);
    }
    match leaf {
        Leaf::Integer => glyph_integers::read_integer(s, at, row, room, table),
        Leaf::Unicode => glyph_texts::read_text(s, at, row, true, room, table),
        Leaf::Bytes => glyph_texts::read_text(s, at, row, false, room, table),
        Leaf::True => read_single(s, at, row, 5, 1, room, table),
        Leaf::False => read_single(s, at, row, 5, 0, room, table),
        Leaf::Nil => read_single(s, at, row, 13, 0, room, table),
    }
}

// The object at `at`, by its letter, for the loop that reads the things of a list or a dict. It is called there alone, so that it is compiled
// into it.
// Stays: by the byte, beside `read_leaf`; tried and slower with the letter as an enum, a call and 35 instructions more for each integer (docs/SPEED.md).
#[tactic(auto, unfolding(glyph_bytes::specs::Leafs::leaf_by))]
pub fn read_in_run(s: &[u8], at: usize, row: usize, room: usize, table: &mut [u32]) -> Step
    requires { (at < length s.now) × Fitting at row room (length s.now) (length table.old) }
    ensures { Did (opened room at row (leaf_of s.now (leaf_by (get_or s.now at 0)) at row)) (length s.now) room (at + 1) row table.old table.new result }
{
    if room <= row {
        return item::refuse(Refusal::NoRow, at);
    }
    match s[at] {
        b'i' => glyph_integers::read_integer(s, at, row, room, table),
        b'u' => glyph_texts::read_text(s, at, row, true, room, table),
        b'b' => glyph_texts::read_text(s, at, row, false, room, table),
        b'T' => read_single(s, at, row, 5, 1, room, table),
        b'F' => read_single(s, at, row, 5, 0, room, table),
        _ => read_single(s, at, row, 13, 0, room, table),
    }
}
