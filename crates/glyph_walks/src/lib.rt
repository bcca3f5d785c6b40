// The rows of objects, as the writer of an edition walks them. `walk_object` walks one. `walk_entries` walks the objects of a list or the pairs
// of a dict, and `walk_container` an object with children; they call one another in a cycle, in which `deep`, the nesting left, falls at
// each. The keys of all dicts are noted in the lent words `notes`. Objects without children are walked in the loop: a function of a
// cycle is never inlined.
#![tactic(auto)]

ghost use Rattle.std.specs.Prelude.{◌≡◌, true, ◌+◌, ◌<◌};
ghost use Rattle.draft.specs.Table.{row_at};
ghost use Rattle.extents.specs.Asked.{Walkable};
ghost use Rattle.keys.specs.Notes.{named};
ghost use Rattle.key_rows.specs.Contract.{Prepared, Done};
ghost use Rattle.containers.specs.Items.{entries};
ghost use Rattle.glyph_rows.specs.Holding.{holds as holdsBy};
ghost use Rattle.glyph_form.specs.Sorts.{sort_of};
ghost use Rattle.glyph_form.specs.Writable.{item, object};
ghost use Rattle.glyph_walks.specs.Contract.{Met, Here, nested, childless};

use draft::{Content, Row};
use glyph::{Edition, Want};

// An object without children, by its row. It is the same in both editions.
#[tactic(auto, unfolding(crate::specs::Contract::childless, glyph_form::specs::Sorts::sort_of))]
fn walk_leaf(
    table: &[u32],
    room: usize,
    rows: usize,
    text: &[u8],
    good: usize,
    row: Row,
    r: usize,
) -> Option<usize>
    requires { Walkable text.now room rows table.now good × Here (row_at room table.now) rows row r }
    ensures { result ≡ childless (row_at room table.now) rows text.now row r }
{
    let kind = row.kind;
    match kind {
        4 => row_ends::walk_integer(row, r),
        5 => row_ends::walk_boolean(row, r),
        8 => extents::walk_content(text, Content::Binary, row, r, good),
        11 => extents::walk_content(text, Content::Text, row, r, good),
        13 => row_ends::close_holding(0, row, Some(r + 1)),
        _ => None,
    }
}

// The object with children of row r.
#[cycle(walk_container_walk_entries)]
fn walk_container(
    edition: Edition,
    table: &[u32],
    room: usize,
    rows: usize,
    text: &[u8],
    good: usize,
    deep: usize,
    row: Row,
    r: usize,
    notes: &mut [u16],
) -> Option<usize>
    requires { (holdsBy row.kind ≡ true) × Here (row_at room table.now) rows row r × Met text.now room rows table.now good r notes.old }
    ensures { Done (item (row_at room table.now) rows text.now (sort_of edition row.kind) (nested (row_at room table.now) rows text.now edition deep) row r) (named text.now room table.now) notes.old notes.new r result }
{
    if deep == 0 || !glyph_rows::may_hold(edition, table, room, rows, row, r) {
        return None;
    }
    let keyed = glyph_rows::is_dict(row.kind);
    let n = row.b as usize;
    let next = walk_entries(
        edition,
        table,
        room,
        rows,
        text,
        good,
        deep - 1,
        n,
        keyed,
        r + 1,
        notes,
    );
    row_ends::close_over(row, next)
}

// n objects, one after the other, each behind its key if they have keys. Their dict is known to the notes by the row where they begin.
#[cycle(walk_container_walk_entries)]
fn walk_entries(
    edition: Edition,
    table: &[u32],
    room: usize,
    rows: usize,
    text: &[u8],
    good: usize,
    deep: usize,
    n: usize,
    keyed: bool,
    first: usize,
    notes: &mut [u16],
) -> Option<usize>
    requires { Prepared text.now room rows table.now good first notes.old }
    ensures { Done (entries (row_at room table.now) rows text.now keyed (object (row_at room table.now) rows text.now edition deep Want.Any) n first) (named text.now room table.now) notes.old notes.new first result }
{
    let mut here = first;
    for _i in 0..n {
        let at = key_rows::walk_key_if(keyed, table, room, rows, text, good, here, notes, first)?;
        if rows <= at {
            return None;
        }
        let row = table::get_row(table, room, at);
        if glyph_rows::holds(row.kind) {
            here = walk_container(edition, table, room, rows, text, good, deep, row, at, notes)?;
        } else {
            here = walk_leaf(table, room, rows, text, good, row, at)?;
        }
    }
    Some(here)
}

// The object of row r.
pub fn walk_object(
    edition: Edition,
    table: &[u32],
    room: usize,
    rows: usize,
    text: &[u8],
    good: usize,
    deep: usize,
    r: usize,
    notes: &mut [u16],
) -> Option<usize>
    requires { Met text.now room rows table.now good r notes.old }
    ensures { Done (object (row_at room table.now) rows text.now edition deep Want.Any r) (named text.now room table.now) notes.old notes.new r result }
{
    if rows <= r {
        return None;
    }
    let row = table::get_row(table, room, r);
    if glyph_rows::holds(row.kind) {
        return walk_container(edition, table, room, rows, text, good, deep, row, r, notes);
    }
    walk_leaf(table, room, rows, text, good, row, r)
}
