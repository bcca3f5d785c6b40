// A row's item without the items that it holds, as the draft has it, put to the front of a lent output if it has at most so many bytes.
// A string's row is none of these: how it is sent depends on those before it.
#![tactic(auto)]

ghost use Rattle.std.specs.Prelude.{◌≡◌, ◌≤◌, length, eqb};
ghost use Rattle.draft.specs.Written.{letter as letter_of, content_bytes, item_bytes};
ghost use Rattle.output.specs.Contract.{Tried};

use draft::{Content, Item, Row};

fn letter(a: u32) -> u8
    ensures { result ≡ letter_of (eqb a 0) }
{
    if a == 0 { b'f' } else { b't' }
}

// An item's content, of a text t.
fn put_content(out: &mut [u8], most: usize, content: Content, t: &[u8]) -> usize
    requires { (most ≤ length out.old) × (length t.now ≤ 65536) }
    ensures { Tried (content_bytes content t.now) most out.old out.new result }
{
    match content {
        Content::Double => output::try_short(out, most, b'D', t),
        Content::DateTime => output::try_short(out, most, b'8', t),
        Content::Binary => output::try_long(out, most, b'B', t),
        Content::Text => 0,
    }
}

// The item of a row that is no string's, without the items that it holds.
pub fn put_item(out: &mut [u8], most: usize, text: &[u8], row: Row) -> usize
    requires { (most ≤ length out.old) × (length text.now ≤ 65536) }
    ensures { Tried (item_bytes text.now row) most out.old out.new result }
{
    let item = draft::item_of(row.kind);
    match item {
        Item::Call => output::try_one(out, most, b'C'),
        Item::Response => output::try_one(out, most, b'R'),
        Item::Fault => output::try_two(out, most, b'R', b'F'),
        Item::Integer => output::try_number(out, most, b'I', row.a as usize),
        Item::Boolean => output::try_one(out, most, letter(row.a)),
        Item::Content(content) => put_content(
            out,
            most,
            content,
            content::part(text, row.a as usize, row.b as usize),
        ),
        Item::Array => output::try_number(out, most, b'A', row.b as usize),
        Item::Struct => output::try_number(out, most, b'S', row.b as usize),
        Item::Other => output::try_one(out, most, b'O'),
        Item::Unknown => 0,
    }
}
