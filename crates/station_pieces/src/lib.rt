// A message in pieces for a station: into the station's share of one table. The share is lent on to the functions that take a whole table; a message
// begins with `pieces::start`, which takes none.
#![tactic(auto, using(crate::proofs::Piecing::station_piecing))]

ghost use Rattle.std.specs.Prelude.{length};
ghost use Rattle.station_pieces.specs.Steps.{NextFor, EndFor};

use pieces::State;
use shares::{NotSplit, Station};

// Takes the next piece, and answers with the state, or with 22; then the state before the call still stands. The room and the share are those of the
// calls before it.
pub fn next(
    state: State,
    piece: &[u8],
    room: &mut [u8],
    table: &mut [u32],
    split: usize,
    station: Station,
    limit: usize,
) -> Result<State, NotSplit>
    ensures { NextFor limit state piece.now station split room.old table.old room.new table.new result }
{
    let share = shares::share_of(table.len(), split, station)?;
    Ok(pieces::next(state, piece, room, &mut table[share], limit))
}

// No more pieces come.
pub fn end(
    state: State,
    room: &[u8],
    table: &mut [u32],
    split: usize,
    station: Station,
    limit: usize,
) -> Result<State, NotSplit>
    ensures { EndFor limit state (length room.now) station split table.old table.new result }
{
    let share = shares::share_of(table.len(), split, station)?;
    Ok(pieces::end(state, room, &mut table[share], limit))
}
