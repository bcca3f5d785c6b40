// What writing a table answers, and of a form that may be put how long it is or why not; in specs what a limit, a table, its texts and an output's
// length give.
#![tactic(auto)]

ghost use Rattle.std.specs.Prelude.{◌≡◌};
ghost use Rattle.write_answer.specs.Answers.{answer_for};

use draft::Refusal;

// The most bytes that a message may have.
pub const MOST_BYTES: usize = 65536;

// How long the form is that is written, or why none is.
pub type Answer = Result<usize, Refusal>;

// The answer for a form that needs n bytes of an output that has so much room.
pub fn answer_for(n: usize, room: usize) -> Answer
    ensures { result ≡ answer_for n room }
{
    if MOST_BYTES < n {
        return Err(Refusal::FormTooLong);
    }
    if room < n {
        return Err(Refusal::OutputTooShort);
    }
    Ok(n)
}
