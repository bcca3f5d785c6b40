// What a row says of where its item ends: where the next row begins, or, if the item holds others, where these end. The answer is the row
// behind the item, or None where its row does not fit.
#![tactic(auto)]

ghost use Rattle.std.specs.Prelude.{◌≡◌, ◌<◌, Some};
ghost use Rattle.draft.specs.Writable.{closed, leaf, over, holding, integer_item, boolean_item};

use draft::Row;

// What an item's row says of where it ends, against where what it holds does.
fn close(row: Row, next: usize) -> Option<usize>
    ensures { result ≡ closed row (Some next) }
{
    let end = row.end as usize;
    if end == next { Some(next) } else { None }
}

// What holds others ends nowhere if they do not fit.
pub fn close_over(row: Row, next: Option<usize>) -> Option<usize>
    ensures { result ≡ over row next }
{
    let end = next?;
    if row.a == 0 { close(row, end) } else { None }
}

pub fn close_holding(b: u32, row: Row, next: Option<usize>) -> Option<usize>
    ensures { result ≡ holding b row next }
{
    if row.b == b {
        close_over(row, next)
    } else {
        None
    }
}

// An item with nothing below it.
pub fn walk_leaf(row: Row, r: usize) -> Option<usize>
    requires { r < 4096 }
    ensures { result ≡ leaf row r }
{
    close(row, r + 1)
}

pub fn walk_integer(row: Row, r: usize) -> Option<usize>
    requires { r < 4096 }
    ensures { result ≡ integer_item row r }
{
    if row.b == 0 { walk_leaf(row, r) } else { None }
}

pub fn walk_boolean(row: Row, r: usize) -> Option<usize>
    requires { r < 4096 }
    ensures { result ≡ boolean_item row r }
{
    if row.a <= 1 {
        walk_integer(row, r)
    } else {
        None
    }
}
