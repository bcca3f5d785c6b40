// Reading a glyph unicode or bytearray: its length and its content.
// Assumes that the place is in the message and the rows fit the table.
#![tactic(auto)]

ghost use Rattle.std.specs.Prelude.{◌≡◌, true, ◌+◌, ◌≤◌, ◌<◌, length};
ghost use Rattle.text.specs.Utf8.{well_formed};
ghost use Rattle.draft.specs.Bytes.{part};
ghost use Rattle.glyph.specs.Read.{opened, content, lengthened, text, text_kind, good_text};
ghost use Rattle.item.specs.Contract.{Fitting};
ghost use Rattle.glyph_item.specs.Contract.{Did};
ghost use Rattle.glyph_integers.specs.Signs.{Slots};
ghost use Rattle.glyph_texts.specs.Plain.{Plain};

use glyph::Refusal;
use glyph_bytes::Digits;
use glyph_item::Step;

// Whether the n bytes at o are below 128, so far as a look at sixteen bytes tells: at the eight before their end, and at their first eight if
// they are more. Of fewer than eight some that stand before them are looked at too.
fn is_plain(s: &[u8], o: usize, n: usize) -> bool
    requires { o + n ≤ length s.now }
    ensures { Plain s.now o n result }
{
    let end = o + n;
    if end < 8 {
        return false;
    }
    if n <= 8 {
        return eights::eight_below(s, end - 8);
    }
    if n <= 16 {
        return eights::eight_below(s, end - 8) & eights::eight_below(s, o);
    }
    false
}

// Whether the n bytes at o are UTF-8. The loop by itself is called, since `is_utf8` is to have one caller, in which it is compiled.
fn is_text(s: &[u8], o: usize, n: usize) -> bool
    requires { o + n ≤ length s.now }
    ensures { result ≡ well_formed (part s.now o n) }
{
    is_plain(s, o, n) || text_check::walk_from(content::part(s, o, n), 0)
}

// Whether content, the n bytes at o, is well-formed: a bytearray's always is.
#[tactic(auto, unfolding(glyph::specs::Read::good_text))]
fn is_good(unicode: bool, s: &[u8], o: usize, n: usize) -> bool
    requires { o + n ≤ length s.now }
    ensures { result ≡ good_text unicode (part s.now o n) }
{
    !unicode || is_text(s, o, n)
}

fn text_kind(unicode: bool) -> u32
    ensures { result ≡ text_kind unicode }
{
    if unicode { 11 } else { 8 }
}

// The content of the item at `at`, n bytes at o and `;`.
fn read_content(
    s: &[u8],
    at: usize,
    row: usize,
    unicode: bool,
    o: usize,
    n: usize,
    room: usize,
    table: &mut [u32],
) -> Step
    requires { (at < o) × (o ≤ length s.now) × (n ≤ 2147483649) × Slots row room (length s.now) (length table.old) }
    ensures { Did (content s.now unicode o n at row) (length s.now) room (at + 1) row table.old table.new result }
{
    let end = o + n;
    if s.len() <= end {
        return item::refuse(Refusal::Ended, at);
    }
    if s[end] != b';' {
        return item::refuse(Refusal::UnexpectedByte, at);
    }
    if !is_good(unicode, s, o, n) {
        return item::refuse(Refusal::BadText, at);
    }
    let kind = text_kind(unicode);
    Ok(item::put_leaf(row, end + 1, kind, o as u32, n as u32, room, table))
}

// A length, `:` and the content.
fn read_lengthened(
    s: &[u8],
    at: usize,
    row: usize,
    unicode: bool,
    room: usize,
    table: &mut [u32],
) -> Step
    requires { (at < length s.now) × Slots row room (length s.now) (length table.old) }
    ensures { Did (lengthened s.now unicode at row) (length s.now) room (at + 1) row table.old table.new result }
{
    let Digits { end, value } = glyph_bytes::count(s, at + 1);
    if s.len() <= end {
        return item::refuse(Refusal::Ended, at);
    }
    if end <= at + 1 || s[end] != b':' {
        return item::refuse(Refusal::UnexpectedByte, at);
    }
    read_content(s, at, row, unicode, end + 1, value, room, table)
}

// A letter and `;`, or a letter, a length, `:`, the content and `;`.
pub fn read_text(
    s: &[u8],
    at: usize,
    row: usize,
    unicode: bool,
    room: usize,
    table: &mut [u32],
) -> Step
    requires { (at < length s.now) × Slots row room (length s.now) (length table.old) }
    ensures { Did (text s.now unicode at row) (length s.now) room (at + 1) row table.old table.new result }
{
    if glyph_bytes::goes_on(s, at + 1) {
        return read_lengthened(s, at, row, unicode, room, table);
    }
    let o = at + 1;
    let kind = text_kind(unicode);
    Ok(item::put_leaf(row, at + 2, kind, o as u32, 0, room, table))
}

// The unicode at `at`, whose letter has been seen.
pub fn read_unicode(s: &[u8], at: usize, row: usize, room: usize, table: &mut [u32]) -> Step
    requires { (at < length s.now) × Fitting at row room (length s.now) (length table.old) }
    ensures { Did (opened room at row (text s.now true at row)) (length s.now) room (at + 1) row table.old table.new result }
{
    if room <= row {
        return item::refuse(Refusal::NoRow, at);
    }
    read_text(s, at, row, true, room, table)
}
