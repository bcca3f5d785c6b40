// Rows of objects with children: which they are, whether such a row may hold what it says in an edition, and an extension's letter.
#![tactic(auto)]

ghost use Rattle.std.specs.Prelude.{◌≡◌, ◌*◌, ◌≤◌, ◌<◌, length};
ghost use Rattle.draft.specs.Table.{row_at};
ghost use Rattle.glyph_form.specs.Form.{letter_for};
ghost use Rattle.glyph_rows.specs.Holding.{holds as holdsBy, is_dict, named, may_hold};

use draft::Row;
use glyph::Edition;

// Whether a kind is that of an object with children.
#[tactic(auto, unfolding(crate::specs::Holding::holds))]
pub fn holds(kind: u32) -> bool
    ensures { result ≡ holdsBy kind }
{
    matches!(kind, 9 | 10 | 14 | 15 | 16)
}

// Whether a kind is a dict's or an ordered_dict's.
#[tactic(auto, unfolding(crate::specs::Holding::is_dict))]
pub fn is_dict(kind: u32) -> bool
    ensures { result ≡ is_dict kind }
{
    kind == 10 || kind == 14
}

// Whether a unicode and either dict stand below row r, as an extension's name and attributes.
#[tactic(auto, unfolding(crate::specs::Holding::named))]
fn is_named(table: &[u32], room: usize, rows: usize, r: usize) -> bool
    requires { (r < rows) × (rows ≤ room) × (room ≤ 4096) × (room * 4 ≤ length table.now) }
    ensures { result ≡ named (row_at room table.now) rows r }
{
    r + 2 < rows
        && table::get_row(table, room, r + 1).kind == 11
        && is_dict(table::get_row(table, room, r + 2).kind)
}

// Whether row r may hold what it says: any number of objects or pairs, but an extension a name, attributes and a content, and a node three objects.
#[tactic(auto, unfolding(crate::specs::Holding::may_hold, glyph_form::specs::Sorts::sort_of))]
pub fn may_hold(
    edition: Edition,
    table: &[u32],
    room: usize,
    rows: usize,
    row: Row,
    r: usize,
) -> bool
    requires { (r < rows) × (rows ≤ room) × (room ≤ 4096) × (room * 4 ≤ length table.now) }
    ensures { result ≡ may_hold (row_at room table.now) rows edition row r }
{
    match row.kind {
        9 | 10 | 14 => true,
        15 => row.b == 3 && is_named(table, room, rows, r),
        16 => matches!(edition, Edition::Old) && row.b == 3,
        _ => false,
    }
}

// The letter of an extension: in 0.5 a node has X.
pub fn extension_letter(edition: Edition) -> u8
    ensures { result ≡ letter_for edition 15 }
{
    match edition {
        Edition::New => b'X',
        Edition::Old => b'H',
    }
}
