// What writing a glyph message answered, reported likewise: the length is set, and the result is 0 or the refusal's number.
ghost use Rattle.std.specs.Prelude.{◌≡◌};
ghost use Rattle.glyph_reports.specs.Writing.{report, report_of, station_report_of};

use draft::Refusal;
use glyph_stations::WriteAnswer;

// Of a table.
pub fn written(answer: Result<usize, Refusal>, size: &mut u64) -> u8
    ensures { report result size.new ≡ report_of answer }
{
    match answer {
        Ok(n) => {
            *size = n as u64;
            0
        }
        Err(refusal) => {
            *size = 0;
            draft::number(refusal)
        }
    }
}

// Of a station's share: with 22 the length is 0.
pub fn station(answer: WriteAnswer, size: &mut u64) -> u8
    ensures { report result size.new ≡ station_report_of answer }
{
    match answer {
        Ok(own) => written(own, size),
        Err(_) => {
            *size = 0;
            22
        }
    }
}
