// What reading a glyph message answered, reported to programs in C and Rust: every number that they lend is set, and the result is 0 or the
// refusal's number.
#![tactic(auto)]

pub mod writing; // writing.rt: of writing

ghost use Rattle.std.specs.Prelude.{◌≡◌};
ghost use Rattle.glyph_reports.specs.Numbers.{report, report_of, station_report_of};

use glyph::Answer;
use glyph_stations::StationAnswer;

// Of a message.
pub fn message(answer: Answer, rows: &mut u64, used: &mut u64, place: &mut u64) -> u8
    ensures { report result rows.new used.new place.new ≡ report_of answer }
{
    match answer {
        Ok(accepted) => {
            *rows = accepted.rows as u64;
            *used = accepted.used as u64;
            *place = 0;
            0
        }
        Err(refused) => {
            *rows = 0;
            *used = 0;
            *place = refused.place as u64;
            refused.refusal.into()
        }
    }
}

// Of a message read for a station: with 22 every number is 0.
pub fn station(answer: StationAnswer, rows: &mut u64, used: &mut u64, place: &mut u64) -> u8
    ensures { report result rows.new used.new place.new ≡ station_report_of answer }
{
    match answer {
        Ok(own) => message(own, rows, used, place),
        Err(refusal) => {
            *rows = 0;
            *used = 0;
            *place = 0;
            refusal.into()
        }
    }
}
