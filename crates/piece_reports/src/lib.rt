// A message in pieces, reported to programs in C and Rust. The state is six words that the caller keeps: the answer (255 if more is wanted), the rows,
// the bytes used, the place, the bytes held and the bytes wanted.
#![tactic(auto)]

ghost use Rattle.std.specs.Prelude.{◌≡◌};
ghost use Rattle.piece_reports.specs.Words.{answer_for, words_of, state_for, state_of, Kept};

use pieces::State;

fn answer_for(state: State) -> u8
    ensures { result ≡ answer_for state }
{
    match state {
        State::More {
            held: _,
            wanted: _,
            place: _,
        } => 255,
        State::Accepted { rows: _, used: _ } => 0,
        State::Refused { refusal, place: _ } => pieces::number(refusal),
    }
}

fn words_of(state: State) -> [u64; 6]
    ensures { result ≡ words_of state }
{
    match state {
        State::More {
            held,
            wanted,
            place,
        } => [255, 0, 0, place as u64, held as u64, wanted as u64],
        State::Accepted { rows, used } => [0, rows as u64, used as u64, 0, 0, 0],
        State::Refused { refusal, place } => {
            let number = pieces::number(refusal);
            [number as u64, 0, 0, place as u64, 0, 0]
        }
    }
}

// The state that some numbers are: any answer that is no other's is a refusal's. No message is accepted with 0 rows: that is one that has just
// begun, so that a state of zeros is, which was never started.
fn state_for(answer: u64, rows: u64, used: u64, place: u64, held: u64, wanted: u64) -> State
    ensures { result ≡ state_for answer rows used place held wanted }
{
    if answer == 255 {
        return State::More {
            held: held as usize,
            wanted: wanted as usize,
            place: place as usize,
        };
    }
    if answer == 0 {
        if rows == 0 {
            return pieces::start();
        }
        return State::Accepted {
            rows: rows as usize,
            used: used as usize,
        };
    }
    State::Refused {
        refusal: pieces::refusal_of(answer as usize),
        place: place as usize,
    }
}

// The state that six words are, which are any.
pub fn state_of(words: &[u64; 6]) -> State
    ensures { result ≡ state_of words.now }
{
    state_for(words[0], words[1], words[2], words[3], words[4], words[5])
}

// A state put into the caller's words; the result is 255 if more is wanted, 0 for acceptance, or the refusal's number.
pub fn keep(state: State, words: &mut [u64; 6]) -> u8
    ensures { Kept state words.new result }
{
    *words = words_of(state);
    answer_for(state)
}
