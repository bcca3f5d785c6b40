// What is looked at of an item before it is read: whether it is an Array or a Struct, and the head of one.
// Assumes that the place is in the message.
#![tactic(auto)]

ghost use Rattle.std.specs.Prelude.{◌≡◌, ◌<◌, length};
ghost use Rattle.heads.specs.Items.{holds_items, head_of};

use draft::Refusal;
use item::{Reached, Step};

// Whether a byte begins an Array or a Struct.
#[tactic(auto, unfolding(crate::specs::Items::holds_items))]
pub fn holds_items(b: u8) -> bool
    ensures { result ≡ holds_items b }
{
    matches!(b, b'A' | b'S')
}

// Whether an Array or a Struct is refused for what it begins with; if not, nothing is read yet.
pub fn read_head(s: &[u8], at: usize, row: usize, deep: usize, room: usize) -> Step
    requires { at < length s.now }
    ensures { result ≡ head_of (length s.now) room deep at row }
{
    if deep == 0 {
        return item::refuse(Refusal::TooDeep, at);
    }
    if room <= row {
        return item::refuse(Refusal::NoRow, at);
    }
    if s.len() < at + 5 {
        return item::refuse(Refusal::Ended, at);
    }
    Ok(Reached { at, row })
}
