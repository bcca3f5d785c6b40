// Reading a whole glyph message into a lent table of rows. `read` assumes nothing.
#![tactic(auto)]

ghost use Rattle.std.specs.Prelude.{◌≡◌, ◌*◌, ◌≤◌, min, length, replicate};
ghost use Rattle.draft.specs.Table.{room_of};
ghost use Rattle.glyph.specs.Read.{root};
ghost use Rattle.glyph.specs.Answers.{reading, Answers};
ghost use Rattle.item.specs.Contract.{Fitting};
ghost use Rattle.glyph_reader.specs.Rooted.{RootDid, BodyDid};

use draft::Refused;
use glyph::{Accepted, Answer, Edition, Refusal, Want};
use glyph_item::Step;

// Document 01's limit on bytes, and document 02's on nesting.
const MOST_BYTES: usize = 65536;

const MOST_NESTING: usize = 32;

// The root, behind blanks, with notes on keys in N words, three for each row that there can be. Laying out the most takes longer than reading a
// small message, so a small one gets few.
fn read_noted<const N: usize>(
    s: &[u8],
    edition: Edition,
    limit: usize,
    room: usize,
    table: &mut [u32],
) -> Step
    requires { Fitting 0 0 room (length s.now) (length table.old) × (min room (length s.now) * 3 ≤ N) × (N ≤ 12288) }
    ensures { RootDid s.now room edition limit table.old table.new result }
{
    let mut words = [0u16; N];
    let notes: &mut [u16] = &mut words;
    let at = glyph_bytes::past_blanks(s, 0);
    glyph_objects::read_object(s, at, 0, edition, Want::Any, limit, room, table, notes)
}

// The root. There are no more rows than there is room for, nor than the message has bytes. A text needs no notes on keys: to lay them out takes a
// tenth of the time of a long one.
fn read_root(s: &[u8], edition: Edition, limit: usize, room: usize, table: &mut [u32]) -> Step
    requires { Fitting 0 0 room (length s.now) (length table.old) }
    ensures { RootDid s.now room edition limit table.old table.new result }
{
    let at = glyph_bytes::past_blanks(s, 0);
    if glyph_bytes::text_at(s, at) {
        return glyph_texts::read_unicode(s, at, 0, room, table);
    }
    let rows = room.min(s.len());
    if rows <= 128 {
        return read_noted::<384>(s, edition, limit, room, table);
    }
    if rows <= 512 {
        return read_noted::<1536>(s, edition, limit, room, table);
    }
    read_noted::<12288>(s, edition, limit, room, table)
}

// The root and the blanks around it, into a table of zeros. A refusal leaves what was read so far.
fn read_body(s: &[u8], table: &mut [u32], edition: Edition, limit: usize) -> Answer
    requires { (length s.now ≤ 65536) × (table.old ≡ replicate (length table.old) 0) }
    ensures { BodyDid (root s.now (room_of 4096 (length table.old)) edition limit) (length table.old) table.new result }
{
    let room = table::room_of(table.len());
    let end = read_root(s, edition, limit, room, table)?;
    let after = glyph_bytes::past_blanks(s, end.at);
    if after < s.len() {
        return Err(Refused {
            refusal: Refusal::UnexpectedByte,
            place: after,
        });
    }
    Ok(Accepted {
        rows: end.row,
        used: end.at,
    })
}

// Reads a message of an edition into a table, nested no deeper than a limit of 1 to 32. Every word of the table is settled: the rows, and zeros
// behind them; on a refusal, zeros.
pub fn read(message: &[u8], table: &mut [u32], edition: Edition, limit: usize) -> Answer
    ensures { Answers (reading edition limit message.now (length table.old)) (length table.old) table.new result }
{
    table::clear(table);
    if limit < 1 || MOST_NESTING < limit {
        return Err(Refused {
            refusal: Refusal::BadLimit,
            place: 0,
        });
    }
    if MOST_BYTES < message.len() {
        return Err(Refused {
            refusal: Refusal::TooLong,
            place: 0,
        });
    }
    let answer = read_body(message, table, edition, limit);
    if answer.is_err() {
        table::clear(table);
    }
    answer
}
