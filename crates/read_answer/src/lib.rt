// What reading a message answers: here is the type, in specs what a message, a limit and a table's length give.
#![tactic(auto)]

use draft::Refusal;

#[derive(Drop)]
pub enum Answer {
    Accepted { rows: usize, used: usize },
    Refused { refusal: Refusal, place: usize },
}
