// The records of a job file, and what one of them says to one who asks for a card.
#![tactic(auto, using(crate::proofs::Looking::records, crate::proofs::Looking::looking))]

ghost use Rattle.std.specs.Prelude.{◌≡◌, cond, ◌+◌, ◌≤◌, ◌<◌, length};
ghost use Rattle.std.specs.declared.ops.ControlFlow.TheVariants.{Break};
ghost use Rattle.records.specs.Job.{refusal_number, missing_at, kind_at, record_length, ends_with, look_at};

use std::ops::ControlFlow;

// The kinds of records.
#[derive(Clone, Copy, PartialEq, Eq, Debug)]
pub enum Kind {
    Card,
    End,
    Other,
}

// Why a job file has no card of a number.
#[derive(Clone, Copy, PartialEq, Eq, Debug)]
pub enum JobRefusal {
    FileEnded,
    WrongEnd,
    NoCard,
}

// The papers' number of a refusal.
impl From<JobRefusal> for u8 {
    ghost from_gives = { λ r n. n ≡ refusal_number r };

    fn from(refusal: JobRefusal) -> u8 {
        match refusal {
            JobRefusal::FileEnded => 15,
            JobRefusal::WrongEnd => 16,
            JobRefusal::NoCard => 26,
        }
    }
}

// Where a card's body stands in the file.
#[derive(Clone, Copy, PartialEq, Eq, Debug)]
pub struct Body {
    pub start: usize,
    pub length: usize,
}

// Why, and at which record, there is no card.
#[derive(Clone, Copy, PartialEq, Eq, Debug)]
pub struct Missing {
    pub refusal: JobRefusal,
    pub place: usize,
}

// What a record leads on to: how many cards there are now, and how long a body to step over.
#[derive(Clone, Copy, PartialEq, Eq, Debug)]
pub struct Onward {
    pub cards: usize,
    pub length: usize,
}

// Of a record: four bytes of length and two of kind.
pub const HEAD: usize = 6;

// The kind of the record that s begins with.
fn kind_at(s: &[u8]) -> Kind
    requires { 6 ≤ length s.now }
    ensures { result ≡ kind_at s.now }
{
    match s[4] as usize + 256 * s[5] as usize {
        1 => Kind::Card,
        2 => Kind::End,
        _ => Kind::Other,
    }
}

// What a whole kind 2 record says when the card asked for has not come.
fn end_says(s: &[u8], cards: usize) -> JobRefusal
    requires { record_length s.now ≤ length s.now }
    ensures { result ≡ cond (ends_with s.now cards) JobRefusal.NoCard JobRefusal.WrongEnd }
{
    if item::unsigned(s, 0) == 4 && item::unsigned(s, HEAD) == cards {
        JobRefusal::NoCard
    } else {
        JobRefusal::WrongEnd
    }
}

fn missing_at(refusal: JobRefusal, place: usize) -> ControlFlow<Result<Body, Missing>, Onward>
    ensures { result ≡ Break (missing_at refusal place) }
{
    ControlFlow::Break(Err(Missing { refusal, place }))
}

// What the record that s begins with says to one who asks for a card: it stands at `at`, with so many cards before it. It is what is found, or leads on.
pub fn look_at(
    s: &[u8],
    number: usize,
    cards: usize,
    at: usize,
) -> ControlFlow<Result<Body, Missing>, Onward>
    requires { (cards ≤ number) × (at + length s.now < 18446744073709551616) }
    ensures { result ≡ look_at number cards at s.now }
{
    if s.len() < HEAD {
        return missing_at(JobRefusal::FileEnded, at);
    }
    let length = item::unsigned(s, 0);
    if s.len() - HEAD < length {
        return missing_at(JobRefusal::FileEnded, at);
    }
    let kind = kind_at(s);
    match kind {
        Kind::Card => {
            if cards == number {
                let start = at + HEAD;
                return ControlFlow::Break(Ok(Body { start, length }));
            }
            ControlFlow::Continue(Onward {
                cards: cards + 1,
                length,
            })
        }
        Kind::End => missing_at(end_says(s, cards), at),
        Kind::Other => ControlFlow::Continue(Onward { cards, length }),
    }
}
