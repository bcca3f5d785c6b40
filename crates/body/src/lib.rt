// What follows the 12 bytes with which every message begins, read with an empty codebook.
#![tactic(auto)]

ghost use Rattle.std.specs.Prelude.{◌≡◌, ◌≤◌, length, replicate};
ghost use Rattle.draft.specs.Read.{call_or_response};
ghost use Rattle.draft.specs.Codebook.{clear};
ghost use Rattle.draft.specs.Table.{room_of};
ghost use Rattle.read_answer.specs.Answers.{Answers};

use read_answer::Answer;

// Into a table of zeros, which is one of zeros again on a refusal.
pub fn read_body(s: &[u8], deep: usize, table: &mut [u32]) -> Answer
    requires { (12 ≤ length s.now) × (length s.now ≤ 65536) × (table.old ≡ replicate (length table.old) 0) }
    ensures { Answers (call_or_response s.now (room_of 4096 (length table.old)) deep 12 0 clear) (length table.old) table.new result }
{
    let room = table::room_of(table.len());
    let mut words = [0u32; 256];
    let book: &mut [u32] = &mut words;
    match first_item::read_first(s, deep, room, table, book) {
        Err(refused) => {
            table::clear(table);
            Answer::Refused {
                refusal: refused.refusal,
                place: refused.place,
            }
        }
        Ok(reached) => Answer::Accepted {
            rows: reached.row,
            used: reached.at,
        },
    }
}
