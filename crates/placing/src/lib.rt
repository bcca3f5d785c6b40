// What three answers are as a position for the laser station: x, y and turn, each from a Double, or why there is none.
#![tactic(auto, using(crate::proofs::Settling::coordinates, crate::proofs::Settling::settling))]

ghost use Rattle.std.specs.Prelude.{◌≡◌};
ghost use Rattle.placing.specs.Placing.{outcome_number, coordinate_number, coordinate_value, is_any, accepted_at, refused_with, settled};

use lookup_answer::{Refusal, Value};

// Where the laser goes.
#[derive(Drop)]
pub struct Position {
    pub x: f64,
    pub y: f64,
    pub turn: f64,
}

// A position with its outcome; a refused one is three plus zeros.
// Stays: E5.refused_zeros speaks of the position of a refused one, and C is told it, so it lies beside the outcome.
#[derive(Drop)]
pub struct Placed {
    pub outcome: Result<(), Refusal>,
    pub position: Position,
}

// The papers' number of an outcome: 0, or the refusal's.
pub fn number(outcome: Result<(), Refusal>) -> u8
    ensures { result ≡ outcome_number outcome }
{
    match outcome {
        Ok(()) => 0,
        Err(refusal) => refusal.into(),
    }
}

// The number of the refusal of an answer as a coordinate, or 0: a coordinate comes from a Double.
fn coordinate_number(answer: Result<Value, Refusal>) -> u8
    ensures { result ≡ coordinate_number answer }
{
    match answer {
        Ok(Value::Decimal(_)) => 0,
        Ok(_) => 18,
        Err(refusal) => refusal.into(),
    }
}

// The value of an answer as a coordinate; plus zero if it is none.
fn coordinate_value(answer: Result<Value, Refusal>) -> f64
    ensures { result ≡ coordinate_value answer }
{
    match answer {
        Ok(Value::Decimal(x)) => x,
        _ => 0.0,
    }
}

// Whether one of three numbers is n.
#[tactic(auto, unfolding(crate::specs::Placing::is_any))]
fn is_any(n: u8, x: u8, y: u8, turn: u8) -> bool
    ensures { result ≡ is_any n x y turn }
{
    x == n || y == n || turn == n
}

fn accepted(position: Position) -> Placed
    ensures { result ≡ accepted_at position }
{
    Placed {
        outcome: Ok(()),
        position,
    }
}

pub fn refused(refusal: Refusal) -> Placed
    ensures { result ≡ refused_with refusal }
{
    Placed {
        outcome: Err(refusal),
        position: Position {
            x: 0.0,
            y: 0.0,
            turn: 0.0,
        },
    }
}

// Three answers together: 11 before 18, 18 over all of them before 19.
pub fn settle(
    x: Result<Value, Refusal>,
    y: Result<Value, Refusal>,
    turn: Result<Value, Refusal>,
) -> Placed
    ensures { result ≡ settled x y turn }
{
    let a = coordinate_number(x);
    let b = coordinate_number(y);
    let c = coordinate_number(turn);
    if is_any(11, a, b, c) {
        return refused(Refusal::NotWritable);
    }
    if is_any(18, a, b, c) {
        return refused(Refusal::NoMember);
    }
    if is_any(19, a, b, c) {
        return refused(Refusal::TooManyDigits);
    }
    accepted(Position {
        x: coordinate_value(x),
        y: coordinate_value(y),
        turn: coordinate_value(turn),
    })
}
