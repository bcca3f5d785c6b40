// What reading answered, reported to programs in C and Rust: every number that they lend is set, and the result is 0 or the refusal's number.
#![tactic(auto, using(crate::proofs::Telling::telling))]

ghost use Rattle.std.specs.Prelude.{◌≡◌};
ghost use Rattle.read_answer.specs.Answers as readers;
ghost use Rattle.job.specs.Cards as jobs;
ghost use Rattle.read_reports.specs.Numbers.{report, card_report, finding, finding_of};

use job::{Accepted, JobFault};
use records::{Body, Missing};

// Of a message.
pub fn message(answer: read_answer::Answer, rows: &mut u64, used: &mut u64, place: &mut u64) -> u8
    ensures { report result rows.new used.new place.new ≡ readers.report_of answer }
{
    match answer {
        read_answer::Answer::Accepted { rows: n, used: m } => {
            *rows = n as u64;
            *used = m as u64;
            *place = 0;
            0
        }
        read_answer::Answer::Refused { refusal, place: p } => {
            *rows = 0;
            *used = 0;
            *place = p as u64;
            draft::number(refusal)
        }
    }
}

// Of a card of a job file.
pub fn card(
    answer: Result<Accepted, JobFault>,
    rows: &mut u64,
    used: &mut u64,
    place: &mut u64,
    body: &mut u64,
) -> u8
    ensures { card_report result rows.new used.new place.new body.new ≡ jobs.report_of answer }
{
    match answer {
        Ok(card) => {
            *rows = card.rows as u64;
            *used = card.used as u64;
            *place = 0;
            *body = card.body as u64;
            0
        }
        Err(fault) => {
            *rows = 0;
            *used = 0;
            *body = 0;
            match fault {
                JobFault::Refused { refusal, place: p } => {
                    *place = p as u64;
                    draft::number(refusal)
                }
                JobFault::Missing { refusal, place: p } => {
                    *place = p as u64;
                    refusal.into()
                }
            }
        }
    }
}

// Of finding a card: where its body lies.
pub fn found(found: Result<Body, Missing>, start: &mut u64, size: &mut u64, place: &mut u64) -> u8
    ensures { finding result start.new size.new place.new ≡ finding_of found }
{
    match found {
        Ok(body) => {
            *start = body.start as u64;
            *size = body.length as u64;
            *place = 0;
            0
        }
        Err(missing) => {
            *start = 0;
            *size = 0;
            *place = missing.place as u64;
            missing.refusal.into()
        }
    }
}
