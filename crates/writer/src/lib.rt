// The writer: a table of rows and the bytes that its texts lie in, into a lent output, in the written form. Here are the refusals and their
// order; the form itself is put by `form`.
#![tactic(auto)]

ghost use Rattle.std.specs.Prelude.{◌≡◌, true};
ghost use Rattle.draft.specs.Limits.{allowed};
ghost use Rattle.write_answer.specs.Answers.{Did};
ghost use Rattle.writer.specs.Contract.{RefusedWith};

use draft::Refusal;
use write_answer::Answer;

// A refusal leaves zeros.
fn refuse(output: &mut [u8], refusal: Refusal) -> Answer
    ensures { RefusedWith refusal output.old output.new result }
{
    copying::clear(output);
    Err(refusal)
}

// What `write` does by a limit that may be stated.
fn write_within(table: &[u32], rows: usize, text: &[u8], limit: usize, output: &mut [u8]) -> Answer
    requires { allowed limit ≡ true }
    ensures { Did limit table.now rows text.now output.old output.new result }
{
    if write_answer::MOST_BYTES < text.len() {
        return refuse(output, Refusal::TooLong);
    }
    if shape::writable_to(table, rows, text, limit) {
        let room = table::room_of(table.len());
        let size = output.len();
        let n = form::fill(table, room, rows, text, output);
        return write_answer::answer_for(n, size);
    }
    refuse(output, Refusal::NotWritable)
}

// Writes a table with a stated number of rows, whose texts lie in the text bytes, nested to at most the limit that is stated. Every byte of the
// output is settled: the message, and zeros behind it; on a refusal, zeros.
pub fn write(table: &[u32], rows: usize, text: &[u8], limit: usize, output: &mut [u8]) -> Answer
    ensures { Did limit table.now rows text.now output.old output.new result }
{
    if draft::allowed(limit) {
        return write_within(table, rows, text, limit, output);
    }
    refuse(output, Refusal::NoLimit)
}
