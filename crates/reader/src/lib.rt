// Reading a whole message into a lent table of rows. `read` assumes nothing.
#![tactic(auto)]

ghost use Rattle.std.specs.Prelude.{◌≡◌, true, length, replicate};
ghost use Rattle.draft.specs.Limits.{allowed};
ghost use Rattle.read_answer.specs.Answers.{reading, Answers};

use draft::Refusal;
use read_answer::Answer;

// Document 01's limit.
const MOST_BYTES: usize = 65536;

// The whole message, into a table of zeros.
fn read_within(message: &[u8], limit: usize, table: &mut [u32]) -> Answer
    requires { (allowed limit ≡ true) × (table.old ≡ replicate (length table.old) 0) }
    ensures { Answers (reading limit message.now (length table.old)) (length table.old) table.new result }
{
    if MOST_BYTES < message.len() {
        return Answer::Refused {
            refusal: Refusal::TooLong,
            place: 0,
        };
    }
    if prefix::agrees(message) {
        if message.len() < 12 {
            return Answer::Refused {
                refusal: Refusal::Ended,
                place: 0,
            };
        }
        body::read_body(message, limit, table)
    } else {
        Answer::Refused {
            refusal: Refusal::WrongPrefix,
            place: 0,
        }
    }
}

// Reads a message into a table, nested to at most the limit that is stated. Every word of the table is settled: the rows, and zeros behind them;
// on a refusal, zeros.
pub fn read(message: &[u8], table: &mut [u32], limit: usize) -> Answer
    ensures { Answers (reading limit message.now (length table.old)) (length table.old) table.new result }
{
    table::clear(table);
    if draft::allowed(limit) {
        return read_within(message, limit, table);
    }
    Answer::Refused {
        refusal: Refusal::NoLimit,
        place: 0,
    }
}
