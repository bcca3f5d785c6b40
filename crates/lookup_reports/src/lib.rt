// What a lookup answered, reported to programs in C and Rust: every number that they lend is set, and the result is 0 or the refusal's number.
#![tactic(auto, using(crate::proofs::Telling::telling))]

ghost use Rattle.std.specs.Prelude.{◌≡◌};
ghost use Rattle.lookup_answer.specs.Reports.{reported};
ghost use Rattle.placing.specs.Placing.{at};
ghost use Rattle.lookup_reports.specs.Numbers.{PositionReported, text_report, text_report_of};

use choice::{Chosen, Refusal};
use lookup_answer::Report;
use placing::Placed;

// Of a member.
pub fn member(
    report: Report,
    sort: &mut u8,
    number: &mut i64,
    decimal: &mut f64,
    offset: &mut u64,
    size: &mut u64,
) -> u8
    ensures { reported result sort.new number.new decimal.new offset.new size.new ≡ report }
{
    *sort = report.sort;
    *number = report.whole;
    *decimal = report.decimal;
    *offset = report.offset;
    *size = report.length;
    report.number
}

// Of a position.
pub fn position(placed: Placed, x: &mut f64, y: &mut f64, turn: &mut f64) -> u8
    ensures { PositionReported placed result (at x.new y.new turn.new) }
{
    let position = placed.position;
    *x = position.x;
    *y = position.y;
    *turn = position.turn;
    let outcome = placed.outcome;
    placing::number(outcome)
}

// Of a text with defaults behind it: since no slice can be returned, it is told by which bytes it lies in, its offset and its length.
pub fn text(
    choice: Result<Chosen, Refusal>,
    source: &mut u8,
    offset: &mut u64,
    size: &mut u64,
) -> u8
    ensures { text_report result source.new offset.new size.new ≡ text_report_of choice }
{
    match choice {
        Ok(text) => {
            *source = text.source.into();
            *offset = text.offset as u64;
            *size = text.length as u64;
            0
        }
        Err(refusal) => {
            *source = 0;
            *offset = 0;
            *size = 0;
            refusal.into()
        }
    }
}
