// A station's share as a table that stands: written, and looked up in. The share is lent on to the functions that take a whole table.
#![tactic(auto, using(crate::proofs::Answering::station_answering))]

ghost use Rattle.std.specs.Prelude.{◌≡◌};
ghost use Rattle.shares.specs.Share.{no_share, on_share};
ghost use Rattle.station_tables.specs.Answers.{WroteFor, lookup_answer, position_answer};

use lookup_answer::{Refusal, Value};
use placing::Placed;
use shares::{NotSplit, Station};

// Writes a station's share of a table that is split at a row, or answers with 22: so many stated rows from the share's first on. Every byte of the
// output is settled; after 22 none is changed.
pub fn write(
    table: &[u32],
    split: usize,
    station: Station,
    rows: usize,
    text: &[u8],
    limit: usize,
    output: &mut [u8],
) -> Result<write_answer::Answer, NotSplit>
    ensures { WroteFor limit table.now station split rows text.now output.old output.new result }
{
    let share = shares::share_of(table.len(), split, station)?;
    Ok(writer::write(&table[share], rows, text, limit, output))
}

// Looks up a member of the Struct of row r of a share.
pub fn lookup(
    table: &[u32],
    split: usize,
    station: Station,
    rows: usize,
    text: &[u8],
    r: usize,
    key: &[u8],
) -> Result<Result<Value, Refusal>, NotSplit>
    ensures { result ≡ on_share station split table.now (lookup_answer rows text.now r key.now) (Err no_share) }
{
    let share = shares::share_of(table.len(), split, station)?;
    Ok(lookup::lookup(&table[share], rows, text, r, key))
}

// The position in the Struct of row r of a share.
pub fn position_of(
    table: &[u32],
    split: usize,
    station: Station,
    rows: usize,
    text: &[u8],
    r: usize,
) -> Result<Placed, NotSplit>
    ensures { result ≡ on_share station split table.now (position_answer rows text.now r) (Err no_share) }
{
    let share = shares::share_of(table.len(), split, station)?;
    Ok(position::position_of(&table[share], rows, text, r))
}
