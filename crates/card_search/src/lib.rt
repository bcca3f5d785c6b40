// Where in a job file a card lies: records are stepped over one after the other until the card asked for, or the end.
#![tactic(auto, using(crate::proofs::Seeking::seeking))]

ghost use Rattle.std.specs.Prelude.{◌≡◌, ◌≤◌, drop};
ghost use Rattle.records.specs.Job.{find as findFrom, body_of};

use records::{Body, JobRefusal, Missing};
use std::ops::ControlFlow;

// The body of card number `number`, from the record at `from` on, with `before` cards before that.
fn seek(file: &[u8], number: usize, before: usize, from: usize) -> Result<Body, Missing>
    requires { before ≤ number }
    ensures { result ≡ findFrom number before from 0 (drop from file.now) }
{
    let mut cards = before;
    let mut at = from;
    while at < file.len() {
        match records::look_at(&file[at..], number, cards, at) {
            ControlFlow::Break(found) => return found,
            ControlFlow::Continue(step) => {
                cards = step.cards;
                at += step.length + records::HEAD;
            }
        }
    }
    Err(Missing {
        refusal: JobRefusal::FileEnded,
        place: at,
    })
}

// The body of a card in the file, or why there is none.
pub fn find(file: &[u8], number: usize) -> Result<Body, Missing>
    ensures { result ≡ body_of file.now number }
{
    seek(file, number, 0, 0)
}

// The body of the next card, for one who goes from card to card: `number` cards stand before the record at `from`.
pub fn find_next(file: &[u8], number: usize, from: usize) -> Result<Body, Missing>
    ensures { result ≡ findFrom number number from 0 (drop from file.now) }
{
    seek(file, number, number, from)
}
