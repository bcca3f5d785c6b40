// A station's share written with a plan. The share is lent on to the writer that takes a whole table.
#![tactic(auto, using(crate::proofs::Answering::station_planning))]

ghost use Rattle.station_plans.specs.Answers.{WroteFor};

use shares::{NotSplit, Station};

// Writes a station's share of a table that is split at a row, by a plan, or answers with 22: so many stated rows from the share's first on. Every byte
// of the output is settled; after 22 none is changed.
pub fn write(
    table: &[u32],
    split: usize,
    station: Station,
    rows: usize,
    text: &[u8],
    plan: &[u8],
    limit: usize,
    output: &mut [u8],
) -> Result<plan_writer::Answer, NotSplit>
    ensures { WroteFor limit table.now station split rows text.now plan.now output.old output.new result }
{
    let share = shares::share_of(table.len(), split, station)?;
    Ok(plan_writer::write(&table[share], rows, text, plan, limit, output))
}
