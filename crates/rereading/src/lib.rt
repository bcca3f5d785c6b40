// Reading the bytes of a message again that was refused with 1 when there were fewer of them. A row takes a byte at least, so no more words of
// the table are used than four for each byte until there is another answer.
#![tactic(auto)]

ghost use Rattle.std.specs.Prelude.{◌≤◌, length};
ghost use Rattle.rereading.specs.Rereading.{table_tried, table_read, PartRead, Reread};

use read_answer::Answer;

// Reads into the first k words of the table.
fn read_part(message: &[u8], table: &mut [u32], k: usize, limit: usize) -> Answer
    requires { k ≤ length table.old }
    ensures { PartRead limit message.now k table.old table.new result }
{
    reader::read(message, &mut table[0..k], limit)
}

// Tries the first k words: refused with 1, a message is so with any more of them, and those are left alone. Else all is read into the table.
fn try_part(message: &[u8], table: &mut [u32], k: usize, limit: usize) -> Answer
    requires { k ≤ length table.old }
    ensures { Reread limit message.now table.old (table_tried limit k message.now table.old) table.new result }
{
    let answer = read_part(message, table, k, limit);
    match answer {
        Answer::Accepted { rows: _, used: _ } => reader::read(message, table, limit),
        Answer::Refused { refusal, place } => {
            if draft::number(refusal) == 1 {
                return Answer::Refused { refusal, place };
            }
            reader::read(message, table, limit)
        }
    }
}

// Reads the bytes, of which so many were wanted: at first none, and the whole table is cleared.
pub fn read_again(message: &[u8], wanted: usize, table: &mut [u32], limit: usize) -> Answer
    ensures { Reread limit message.now table.old (table_read limit wanted message.now table.old) table.new result }
{
    if wanted == 0 {
        return reader::read(message, table, limit);
    }
    if table.len() / 4 <= message.len() {
        return reader::read(message, table, limit);
    }
    try_part(message, table, 4 * message.len(), limit)
}
