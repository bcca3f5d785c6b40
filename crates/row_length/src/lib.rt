// How many bytes a row's item has, as the draft has it, without the items that it holds. A string's row is none of these: how it is sent
// depends on those before it.
#![tactic(auto)]

ghost use Rattle.std.specs.Prelude.{◌≡◌, ◌≤◌, length};
ghost use Rattle.draft.specs.Written.{content_bytes, item_bytes};

use draft::{Content, Item, Row};

fn content_length(content: Content, t: &[u8]) -> usize
    requires { length t.now ≤ 65536 }
    ensures { result ≡ length (content_bytes content t.now) }
{
    match content {
        Content::Double | Content::DateTime => 2 + t.len(),
        Content::Binary => 5 + t.len(),
        Content::Text => 0,
    }
}

// The item of a row that is no string's, without the items that it holds.
pub fn item_length(text: &[u8], row: Row) -> usize
    requires { length text.now ≤ 65536 }
    ensures { result ≡ length (item_bytes text.now row) }
{
    match draft::item_of(row.kind) {
        Item::Call | Item::Response | Item::Boolean | Item::Other => 1,
        Item::Fault => 2,
        Item::Integer | Item::Array | Item::Struct => 5,
        Item::Content(content) => content_length(
            content,
            content::part(text, row.a as usize, row.b as usize),
        ),
        Item::Unknown => 0,
    }
}
