// The writer of an edition: a table of rows and the bytes that its texts lie in, into a lent output, in the written form. Here are the
// refusals and their order; the form itself is put by `glyph_puts`.
#![tactic(auto)]

ghost use Rattle.std.specs.Prelude.{◌≡◌, ◌≤◌, true, length};
ghost use Rattle.draft.specs.Limits.{allowed};
ghost use Rattle.draft.specs.Table.{row_at};
ghost use Rattle.glyph_form.specs.Writable.{writable};
ghost use Rattle.glyph_form.specs.Form.{form_of};
ghost use Rattle.glyph_form.specs.Answers.{answer_for, Did};
ghost use Rattle.glyph_output.specs.Contract.{Open, Adds};
ghost use Rattle.glyph_puts.specs.Contract.{Ready, Fit, object_bytes};
ghost use Rattle.glyph_writer.specs.Contract.{RefusedWith, Filled};

use draft::Refusal;
use glyph::Edition;

// The most bytes that a message may have.
pub const MOST_BYTES: usize = 65536;

// A refusal leaves zeros.
fn refuse(output: &mut [u8], refusal: Refusal) -> Result<usize, Refusal>
    ensures { RefusedWith refusal output.old output.new result }
{
    copying::clear(output);
    Err(refusal)
}

// The answer for a form of n bytes, with so much room.
#[tactic(auto, using(crate::proofs::Answering::answers))]
fn answer_for(n: usize, room: usize) -> Result<usize, Refusal>
    ensures { result ≡ answer_for n room }
{
    if MOST_BYTES < n {
        return Err(Refusal::FormTooLong);
    }
    if room < n {
        return Err(Refusal::OutputTooShort);
    }
    Ok(n)
}

// The root object, with so many words for the rows of a dict's keys.
fn put_root<const WORDS: usize>(
    edition: Edition,
    table: &[u32],
    room: usize,
    text: &[u8],
    limit: usize,
    most: usize,
    output: &mut [u8],
) -> usize
    requires { Ready room (length table.now) (length text.now) × Open most (length output.old) 0 × Fit (row_at room table.now) room text.now edition limit WORDS 0 × (WORDS ≤ 3072) }
    ensures { Adds (object_bytes (row_at room table.now) text.now edition limit 0) most output.old 0 output.new result }
{
    let mut words = [0u32; WORDS];
    glyph_puts::put_object(
        edition, table, room, text, limit, 0, &mut words, most, 0, output,
    )
}

// The written form of a writable table, if it has at most so many bytes; and where it ends. Laying out words for the key rows of the largest dict
// takes longer than putting a small table, so a small one gets few.
#[tactic(auto, using(crate::proofs::Answering::forms))]
fn put_form(
    edition: Edition,
    table: &[u32],
    rows: usize,
    text: &[u8],
    limit: usize,
    most: usize,
    output: &mut [u8],
) -> usize
    requires { (writable edition limit table.now rows text.now ≡ true) × Open most (length output.old) 0 }
    ensures { Adds (form_of edition limit table.now text.now) most output.old 0 output.new result }
{
    let room = table::room_of(table.len());
    if rows <= 65 {
        return put_root::<48>(edition, table, room, text, limit, most, output);
    }
    put_root::<3072>(edition, table, room, text, limit, most, output)
}

// The written form of a writable table, where it is short enough and there is room for it, and zeros behind it; else zeros.
#[tactic(auto, using(crate::proofs::Answering::filling))]
fn fill(
    edition: Edition,
    table: &[u32],
    rows: usize,
    text: &[u8],
    limit: usize,
    output: &mut [u8],
) -> Result<usize, Refusal>
    requires { writable edition limit table.now rows text.now ≡ true }
    ensures { Filled (form_of edition limit table.now text.now) output.old output.new result }
{
    let room = output.len();
    let most = room.min(MOST_BYTES);
    let n = put_form(edition, table, rows, text, limit, most, output);
    if n <= most {
        copying::clear(&mut output[n..]);
        return Ok(n);
    }
    copying::clear(output);
    answer_for(n, room)
}

// What `write` does by a limit that may be stated.
#[tactic(auto, using(crate::proofs::Answering::answering))]
fn write_within(
    table: &[u32],
    rows: usize,
    text: &[u8],
    edition: Edition,
    limit: usize,
    output: &mut [u8],
) -> Result<usize, Refusal>
    requires { allowed limit ≡ true }
    ensures { Did edition limit table.now rows text.now output.old output.new result }
{
    if MOST_BYTES < text.len() {
        return refuse(output, Refusal::TooLong);
    }
    if glyph_shape::writable(edition, table, rows, text, limit) {
        return fill(edition, table, rows, text, limit, output);
    }
    refuse(output, Refusal::NotWritable)
}

// Writes a table with a stated number of rows, whose texts lie in the text bytes, nested to at most the limit that is stated. Every byte of the
// output is settled: the message, and zeros behind it; on a refusal, zeros.
#[tactic(auto, using(crate::proofs::Answering::answering))]
pub fn write(
    table: &[u32],
    rows: usize,
    text: &[u8],
    edition: Edition,
    limit: usize,
    output: &mut [u8],
) -> Result<usize, Refusal>
    ensures { Did edition limit table.now rows text.now output.old output.new result }
{
    if draft::allowed(limit) {
        return write_within(table, rows, text, edition, limit, output);
    }
    refuse(output, Refusal::NoLimit)
}
