// What of a row's content has to be looked at: whether its length goes into its field, whether its bytes were checked before, and whether
// there is a rule for them. Assumes nothing.
#![tactic(auto)]

ghost use Rattle.std.specs.Prelude.{◌≡◌};
ghost use Rattle.draft.specs.Writable.{sized as sizedBy};
ghost use Rattle.asked.specs.Contents.{is_binary, checked_before};

use draft::Content;

// A String of at least so many bytes is long: it may have been checked before.
pub const LONG: u32 = 512;

// Whether a length goes into the item's field for it.
pub fn sized(content: Content, n: u32) -> bool
    ensures { result ≡ sizedBy content n }
{
    match content {
        Content::Double | Content::DateTime => n <= 255,
        Content::Binary | Content::Text => true,
    }
}

// Whether content of n bytes in row r was checked before: a String of 512 bytes or more in a row before row `good`.
#[tactic(auto, unfolding(crate::specs::Contents::checked_before))]
pub fn is_checked(content: Content, n: u32, r: usize, good: usize) -> bool
    ensures { result ≡ checked_before content n r good }
{
    r < good && LONG <= n && matches!(content, Content::Text)
}

// Whether content is a Binary's, which has no rule.
pub fn is_binary(content: Content) -> bool
    ensures { result ≡ is_binary content }
{
    matches!(content, Content::Binary)
}
