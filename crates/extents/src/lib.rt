// The rows of content: it lies inside the text bytes and keeps its rule, and the row ends where the next begins. A walk answers with the row
// behind what it walked, or None where that does not fit. Long Strings in rows before row `good` were checked before.
#![tactic(auto)]

ghost use Rattle.std.specs.Prelude.{◌≡◌, ◌<◌};
ghost use Rattle.draft.specs.Rows.{kind_of};
ghost use Rattle.draft.specs.Table.{row_at};
ghost use Rattle.draft.specs.Writable.{content_item, only, string};
ghost use Rattle.extents.specs.Asked.{Walkable, Known};

use asked::{is_binary, is_checked, sized};
use draft::{Content, Row};
use row_ends::walk_leaf;

// A Binary, whose bytes only have to be there.
fn walk_binary(text: &[u8], row: Row, r: usize) -> Option<usize>
    requires { r < 4096 }
    ensures { result ≡ content_item text.now Content.Binary row r }
{
    let from = row.a as usize;
    let n = row.b as usize;
    if text.len() < from + n {
        return None;
    }
    walk_leaf(row, r)
}

// Content that lies inside the text bytes and keeps its rule.
pub fn walk_content(text: &[u8], content: Content, row: Row, r: usize, good: usize) -> Option<usize>
    requires { (r < 4096) × Known text.now content row r good }
    ensures { result ≡ content_item text.now content row r }
{
    if is_binary(content) {
        return walk_binary(text, row, r);
    }
    if is_checked(content, row.b, r, good) {
        return walk_leaf(row, r);
    }
    if !sized(content, row.b) {
        return None;
    }
    let verdict = content::inspect(content, text, row.a as usize, row.b as usize);
    match verdict {
        Ok(()) => walk_leaf(row, r),
        Err(_) => None,
    }
}

// Content of one kind, where nothing else is allowed.
pub fn walk_only(
    table: &[u32],
    room: usize,
    rows: usize,
    text: &[u8],
    good: usize,
    content: Content,
    r: usize,
) -> Option<usize>
    requires { Walkable text.now room rows table.now good }
    ensures { result ≡ only (row_at room table.now) rows text.now (kind_of content) (content_item text.now content) r }
{
    if rows <= r {
        return None;
    }
    let row = table::get_row(table, room, r);
    if row.kind == draft::kind(content) {
        walk_content(text, content, row, r, good)
    } else {
        None
    }
}

pub fn walk_string(
    table: &[u32],
    room: usize,
    rows: usize,
    text: &[u8],
    good: usize,
    r: usize,
) -> Option<usize>
    requires { Walkable text.now room rows table.now good }
    ensures { result ≡ string (row_at room table.now) rows text.now r }
{
    walk_only(table, room, rows, text, good, Content::Text, r)
}
