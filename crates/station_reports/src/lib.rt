// What a call for a station answered, reported to programs in C and Rust: as for the call without stations; or 22, and then every number that they lend
// is 0, but the words of a state are as they were. A station is the number 4 or 5.
#![tactic(auto, using(crate::proofs::Telling::telling, crate::proofs::Telling::lying_there))]

ghost use Rattle.std.specs.Prelude.{◌≡◌};
ghost use Rattle.shares.specs.Share.{station_of, split_for, share_for};
ghost use Rattle.lookup_answer.specs.Reports.{reported};
ghost use Rattle.placing.specs.Placing.{at};
ghost use Rattle.station_reading.specs.Answers.{report_of, card_report_of};
ghost use Rattle.station_tables.specs.Answers.{write_report_of, lookup_report_of};
ghost use Rattle.station_plans.specs.Answers as plans;
ghost use Rattle.read_reports.specs.Numbers.{report, card_report};
ghost use Rattle.write_reports.specs.Numbers as writing;
ghost use Rattle.station_reports.specs.Numbers.{lying, lying_of, PieceKept, StationPlaced};

use job::{Accepted, JobFault};
use lookup_answer::{Refusal, Value};
use pieces::State;
use placing::Placed;
use shares::NotSplit;

// Where a station's share of a table of so many words lies: its first word and how many words it has.
pub fn share(words: usize, split: usize, station: u8, first: &mut u64, size: &mut u64) -> u8
    ensures { lying result first.new size.new ≡ lying_of (share_for words (split_for station split) (station_of station)) }
{
    let share = shares::share_of(
        words,
        shares::split_for(station, split),
        shares::station_of(station),
    );
    match share {
        Ok(part) => {
            *first = part.start as u64;
            *size = (part.end - part.start) as u64;
            0
        }
        Err(refusal) => {
            *first = 0;
            *size = 0;
            refusal.into()
        }
    }
}

// Of a message.
pub fn message(
    answer: Result<read_answer::Answer, NotSplit>,
    rows: &mut u64,
    used: &mut u64,
    place: &mut u64,
) -> u8
    ensures { report result rows.new used.new place.new ≡ report_of answer }
{
    match answer {
        Ok(own) => read_reports::message(own, rows, used, place),
        Err(refusal) => {
            *rows = 0;
            *used = 0;
            *place = 0;
            refusal.into()
        }
    }
}

// Of a card of a job file.
pub fn card(
    answer: Result<Result<Accepted, JobFault>, NotSplit>,
    rows: &mut u64,
    used: &mut u64,
    place: &mut u64,
    body: &mut u64,
) -> u8
    ensures { card_report result rows.new used.new place.new body.new ≡ card_report_of answer }
{
    match answer {
        Ok(own) => read_reports::card(own, rows, used, place, body),
        Err(refusal) => {
            *rows = 0;
            *used = 0;
            *place = 0;
            *body = 0;
            refusal.into()
        }
    }
}

// Of a message in pieces, whose state is six words.
pub fn piece(answer: Result<State, NotSplit>, words: &mut [u64; 6]) -> u8
    ensures { PieceKept answer words.old words.new result }
{
    match answer {
        Ok(after) => piece_reports::keep(after, words),
        Err(refusal) => refusal.into(),
    }
}

// Of a table written.
pub fn written(answer: Result<write_answer::Answer, NotSplit>, size: &mut u64) -> u8
    ensures { writing.report result size.new ≡ write_report_of answer }
{
    match answer {
        Ok(own) => write_reports::written(own, size),
        Err(refusal) => {
            *size = 0;
            refusal.into()
        }
    }
}

// Of a table written by a plan.
pub fn planned(answer: Result<plan_writer::Answer, NotSplit>, size: &mut u64) -> u8
    ensures { writing.plan_report result size.new ≡ plans.report_of answer }
{
    match answer {
        Ok(own) => write_reports::by_plan::planned(own, size),
        Err(refusal) => {
            *size = 0;
            refusal.into()
        }
    }
}

// Of a member.
pub fn member(
    answer: Result<Result<Value, Refusal>, NotSplit>,
    sort: &mut u8,
    number: &mut i64,
    decimal: &mut f64,
    offset: &mut u64,
    size: &mut u64,
) -> u8
    ensures { reported result sort.new number.new decimal.new offset.new size.new ≡ lookup_report_of answer }
{
    match answer {
        Ok(own) => {
            lookup_reports::member(
                lookup_answer::report_of(own),
                sort,
                number,
                decimal,
                offset,
                size,
            )
        }
        Err(refusal) => {
            *sort = 0;
            *number = 0;
            *decimal = 0.0;
            *offset = 0;
            *size = 0;
            refusal.into()
        }
    }
}

// Of a position.
pub fn position(answer: Result<Placed, NotSplit>, x: &mut f64, y: &mut f64, turn: &mut f64) -> u8
    ensures { StationPlaced answer result (at x.new y.new turn.new) }
{
    match answer {
        Ok(placed) => lookup_reports::position(placed, x, y, turn),
        Err(refusal) => {
            *x = 0.0;
            *y = 0.0;
            *turn = 0.0;
            refusal.into()
        }
    }
}
