// A glyph message read for a station into the station's share of one table, and written from it. The share is lent on to the functions that take a whole
// table.
#![tactic(auto, using(crate::proofs::Reading::station_reading, crate::proofs::Writing::station_writing))]

ghost use Rattle.glyph_stations.specs.Answers.{ReadFor, WroteFor};

use draft::Refusal;
use glyph::Edition;
use shares::{NotSplit, Station};

// What reading a message for a station answers: as for a whole table, or 22.
pub type StationAnswer = Result<glyph::Answer, NotSplit>;

// What writing a station's share answers, likewise.
pub type WriteAnswer = Result<Result<usize, Refusal>, NotSplit>;

// Reads a message of an edition into a station's share of a table that is split at a row. Every word of the share is settled, and no other is
// changed.
pub fn read(
    message: &[u8],
    table: &mut [u32],
    split: usize,
    station: Station,
    edition: Edition,
    limit: usize,
) -> StationAnswer
    ensures { ReadFor edition limit message.now station split table.old table.new result }
{
    let share = shares::share_of(table.len(), split, station)?;
    Ok(glyph_reader::read(message, &mut table[share], edition, limit))
}

// Writes a station's share of a table that is split at a row, in an edition: so many stated rows from the share's first on. Every byte of the output is
// settled; after 22 none is changed.
pub fn write(
    table: &[u32],
    split: usize,
    station: Station,
    rows: usize,
    text: &[u8],
    edition: Edition,
    limit: usize,
    output: &mut [u8],
) -> WriteAnswer
    ensures { WroteFor edition limit table.now station split rows text.now output.old output.new result }
{
    let share = shares::share_of(table.len(), split, station)?;
    Ok(glyph_writer::write(&table[share], rows, text, edition, limit, output))
}
