// A message in pieces: they are held in one lent room, and each is answered with more wanted, accepted or refused.
#![tactic(auto)]

ghost use Rattle.std.specs.Prelude.{◌≡◌, true, ◌≤◌, length};
ghost use Rattle.draft.specs.Limits.{allowed};
ghost use Rattle.pieces.specs.Steps.{number_for, refusal_for, still_more, wanted_of, Settled, Went, Closed};
ghost use Rattle.pieces.specs.Runs.{begun};

use draft::Refusal;
use read_answer::Answer;

// Why a message in pieces is refused: as a whole message is, or with 4.
#[derive(Clone, Copy)]
pub enum PieceRefusal {
    Message(Refusal),
    ShortRoom,
}

// Where the reading of the pieces stands. If more is wanted: so many bytes are held; no other answer is possible while fewer than `wanted` are,
// which is at most 65,537; and the place is that of refusal 1, if no more came.
#[derive(Clone, Copy)]
pub enum State {
    More {
        held: usize,
        wanted: usize,
        place: usize,
    },
    Accepted {
        rows: usize,
        used: usize,
    },
    Refused {
        refusal: PieceRefusal,
        place: usize,
    },
}

// The papers' number of a refusal.
pub fn number(refusal: PieceRefusal) -> u8
    ensures { result ≡ number_for refusal }
{
    match refusal {
        PieceRefusal::Message(m) => draft::number(m),
        PieceRefusal::ShortRoom => 4,
    }
}

// The refusal that has a number.
pub fn refusal_of(number: usize) -> PieceRefusal
    ensures { result ≡ refusal_for number }
{
    if number == 4 {
        return PieceRefusal::ShortRoom;
    }
    PieceRefusal::Message(draft::refusal_of(number))
}

// Nothing has come yet.
pub fn start() -> State
    ensures { result ≡ begun }
{
    State::More {
        held: 0,
        wanted: 0,
        place: 0,
    }
}

// More is wanted, unless a piece brought a byte that there is no room for.
fn still(held: usize, brought: usize, wanted: usize, place: usize) -> State
    requires { held ≤ 65536 }
    ensures { result ≡ still_more held brought wanted place }
{
    if room::MOST - held < brought {
        return State::Refused {
            refusal: PieceRefusal::Message(Refusal::TooLong),
            place: 0,
        };
    }
    State::More {
        held: held + brought,
        wanted,
        place,
    }
}

// How many bytes are wanted where those held are refused with 1 at a place: with one more than there is room for comes an answer.
fn wanted_of(message: &[u8], place: usize) -> usize
    requires { length message.now ≤ 65536 }
    ensures { result ≡ wanted_of message.now place }
{
    let wanted = want::wants(message, place);
    if room::MOST < wanted {
        return room::MOST + 1;
    }
    wanted
}

// Reads the bytes held. Before the last piece and what it brought, the first `held` of them were.
fn settle(
    message: &[u8],
    held: usize,
    brought: usize,
    wanted: usize,
    table: &mut [u32],
    limit: usize,
) -> State
    requires { (held ≤ 65536) × (length message.now ≤ 65536) }
    ensures { Settled limit held brought wanted message.now table.old table.new result }
{
    let answer = rereading::read_again(message, wanted, table, limit);
    match answer {
        Answer::Accepted { rows, used } => State::Accepted { rows, used },
        Answer::Refused { refusal, place } => {
            if draft::number(refusal) == 1 {
                return still(held, brought, wanted_of(message, place), place);
            }
            State::Refused {
                refusal: PieceRefusal::Message(refusal),
                place,
            }
        }
    }
}

// A piece where more is wanted.
fn go_on(
    held: usize,
    wanted: usize,
    place: usize,
    piece: &[u8],
    room: &mut [u8],
    table: &mut [u32],
    limit: usize,
) -> State
    requires { (65536 ≤ length room.old) × (allowed limit ≡ true) }
    ensures { Went limit (State.More held wanted place) piece.now room.old table.old room.new table.new result }
{
    if room::MOST < held {
        return State::Refused {
            refusal: PieceRefusal::Message(Refusal::TooLong),
            place: 0,
        };
    }
    let n = room::hold(room, held, piece);
    if n < wanted {
        return still(held, piece.len(), wanted, place);
    }
    settle(&room[0..n], held, piece.len(), wanted, table, limit)
}

// A piece, by a limit that may be stated.
fn take(state: State, piece: &[u8], room: &mut [u8], table: &mut [u32], limit: usize) -> State
    requires { allowed limit ≡ true }
    ensures { Went limit state piece.now room.old table.old room.new table.new result }
{
    if room.len() < room::MOST {
        table::clear(table);
        return State::Refused {
            refusal: PieceRefusal::ShortRoom,
            place: 0,
        };
    }
    match state {
        State::More {
            held,
            wanted,
            place,
        } => go_on(held, wanted, place, piece, room, table, limit),
        State::Accepted { rows, used } => State::Accepted { rows, used },
        State::Refused { refusal, place } => State::Refused { refusal, place },
    }
}

// The end, by a limit that may be stated.
fn close(state: State, room: &[u8], table: &mut [u32], limit: usize) -> State
    requires { allowed limit ≡ true }
    ensures { Closed limit state (length room.now) table.old table.new result }
{
    if room.len() < room::MOST {
        table::clear(table);
        return State::Refused {
            refusal: PieceRefusal::ShortRoom,
            place: 0,
        };
    }
    match state {
        State::More {
            held: _,
            wanted: _,
            place,
        } => {
            table::clear(table);
            State::Refused {
                refusal: PieceRefusal::Message(Refusal::Ended),
                place,
            }
        }
        State::Accepted { rows, used } => State::Accepted { rows, used },
        State::Refused { refusal, place } => State::Refused { refusal, place },
    }
}

// Takes the next piece. The room, the table and the limit of nesting are those of the calls before it.
pub fn next(state: State, piece: &[u8], room: &mut [u8], table: &mut [u32], limit: usize) -> State
    ensures { Went limit state piece.now room.old table.old room.new table.new result }
{
    if draft::allowed(limit) {
        return take(state, piece, room, table, limit);
    }
    table::clear(table);
    State::Refused {
        refusal: PieceRefusal::Message(Refusal::NoLimit),
        place: 0,
    }
}

// No more pieces come: where more is wanted, the message is refused with 1.
pub fn end(state: State, room: &[u8], table: &mut [u32], limit: usize) -> State
    ensures { Closed limit state (length room.now) table.old table.new result }
{
    if draft::allowed(limit) {
        return close(state, room, table, limit);
    }
    table::clear(table);
    State::Refused {
        refusal: PieceRefusal::Message(Refusal::NoLimit),
        place: 0,
    }
}
