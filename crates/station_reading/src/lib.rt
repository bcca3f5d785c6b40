// Reading for a station: a message, or a card of a job, into the station's share of one table. The share is lent on to the functions that read into
// a whole table.
#![tactic(auto, using(crate::proofs::Reading::station_reading))]

ghost use Rattle.station_reading.specs.Answers.{ReadFor, CardFor};

use job::{Accepted, JobFault};
use shares::{NotSplit, Station};

// Reads a message into a station's share of a table that is split at a row, or answers with 22. Every word of the share is settled, and no other is
// changed.
pub fn read(
    message: &[u8],
    table: &mut [u32],
    split: usize,
    station: Station,
    limit: usize,
) -> Result<read_answer::Answer, NotSplit>
    ensures { ReadFor limit message.now station split table.old table.new result }
{
    let share = shares::share_of(table.len(), split, station)?;
    Ok(reader::read(message, &mut table[share], limit))
}

// Reads a card of a job file, likewise.
pub fn read_card(
    file: &[u8],
    number: usize,
    table: &mut [u32],
    split: usize,
    station: Station,
) -> Result<Result<Accepted, JobFault>, NotSplit>
    ensures { CardFor file.now number station split table.old table.new result }
{
    let words = shares::share_of(table.len(), split, station)?;
    Ok(job::read_card(file, number, &mut table[words]))
}
