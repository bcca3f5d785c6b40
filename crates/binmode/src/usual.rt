// The calls for programs in C and Rust that state no limit of nesting: it is 8 then. Each is the call of its name that is told the limit.
ghost use Rattle.std.specs.Prelude.{length};
ghost use Rattle.read_answer.specs.Answers.{reading};
ghost use Rattle.read_reports.specs.Numbers.{report};
ghost use Rattle.write_reports.specs.Numbers as writing;
ghost use Rattle.binmode.specs.Reported.{Reported, WriteReported};
ghost use Rattle.piece_reports.specs.Reported.{PieceReported, EndReported};
ghost use Rattle.binmode.specs.Planned.{WritePlannedReported};
ghost use Rattle.binmode.specs.Stations.{StationRead, StationPiece, StationEnd, StationWrote, StationPlanned};

use crate::in_pieces::{binmode_pieces_end_within, binmode_pieces_next_within};
use crate::planned::binmode_write_planned_within;
use crate::stations::{
    binmode_station_pieces_end_within, binmode_station_pieces_next_within,
    binmode_station_read_within, binmode_station_write_planned_within,
    binmode_station_write_within,
};
use crate::{binmode_read_within, binmode_write_within};

// Reads a message into a table, nested to at most 8.
pub fn binmode_read(
    message: &[u8],
    table: &mut [u32],
    rows: &mut u64,
    used: &mut u64,
    place: &mut u64,
) -> u8
    ensures { Reported (reading 8 message.now (length table.old)) (length table.old) table.new result rows.new used.new place.new }
{
    binmode_read_within(message, table, draft::USUAL_NESTING, rows, used, place)
}

// Writes a table that is nested to at most 8.
pub fn binmode_write(
    table: &[u32],
    rows: usize,
    text: &[u8],
    output: &mut [u8],
    size: &mut u64,
) -> u8
    ensures { WriteReported 8 table.now rows text.now output.old output.new result size.new }
{
    binmode_write_within(table, rows, text, draft::USUAL_NESTING, output, size)
}

// The same, by a plan.
pub fn binmode_write_planned(
    table: &[u32],
    rows: usize,
    text: &[u8],
    plan: &[u8],
    output: &mut [u8],
    size: &mut u64,
) -> u8
    ensures { WritePlannedReported 8 table.now rows text.now plan.now output.old output.new result size.new }
{
    binmode_write_planned_within(table, rows, text, plan, draft::USUAL_NESTING, output, size)
}

// Takes the next piece of a message.
pub fn binmode_pieces_next(
    state: &mut [u64; 6],
    piece: &[u8],
    room: &mut [u8],
    table: &mut [u32],
) -> u8
    ensures { PieceReported 8 state.old piece.now room.old table.old state.new room.new table.new result }
{
    binmode_pieces_next_within(state, piece, room, table, draft::USUAL_NESTING)
}

// Says that no more pieces come.
pub fn binmode_pieces_end(state: &mut [u64; 6], room: &[u8], table: &mut [u32]) -> u8
    ensures { EndReported 8 state.old (length room.now) table.old state.new table.new result }
{
    binmode_pieces_end_within(state, room, table, draft::USUAL_NESTING)
}

// Reads a message into a station's share.
pub fn binmode_station_read(
    message: &[u8],
    table: &mut [u32],
    split: usize,
    station: u8,
    rows: &mut u64,
    used: &mut u64,
    place: &mut u64,
) -> u8
    ensures { StationRead 8 message.now station split table.old table.new (report result rows.new used.new place.new) }
{
    binmode_station_read_within(
        message,
        table,
        split,
        station,
        draft::USUAL_NESTING,
        rows,
        used,
        place,
    )
}

// Takes the next piece of a message into a station's share.
pub fn binmode_station_pieces_next(
    state: &mut [u64; 6],
    piece: &[u8],
    room: &mut [u8],
    table: &mut [u32],
    split: usize,
    station: u8,
) -> u8
    ensures { StationPiece 8 state.old piece.now station split room.old table.old state.new room.new table.new result }
{
    binmode_station_pieces_next_within(
        state,
        piece,
        room,
        table,
        split,
        station,
        draft::USUAL_NESTING,
    )
}

// Says that no more pieces come.
pub fn binmode_station_pieces_end(
    state: &mut [u64; 6],
    room: &[u8],
    table: &mut [u32],
    split: usize,
    station: u8,
) -> u8
    ensures { StationEnd 8 state.old (length room.now) station split table.old state.new table.new result }
{
    binmode_station_pieces_end_within(state, room, table, split, station, draft::USUAL_NESTING)
}

// Writes a station's share.
pub fn binmode_station_write(
    table: &[u32],
    split: usize,
    station: u8,
    rows: usize,
    text: &[u8],
    output: &mut [u8],
    size: &mut u64,
) -> u8
    ensures { StationWrote 8 table.now station split rows text.now output.old output.new (writing.report result size.new) }
{
    binmode_station_write_within(
        table,
        split,
        station,
        rows,
        text,
        draft::USUAL_NESTING,
        output,
        size,
    )
}

// The same, by a plan.
pub fn binmode_station_write_planned(
    table: &[u32],
    split: usize,
    station: u8,
    rows: usize,
    text: &[u8],
    plan: &[u8],
    output: &mut [u8],
    size: &mut u64,
) -> u8
    ensures { StationPlanned 8 table.now station split rows text.now plan.now output.old output.new (writing.plan_report result size.new) }
{
    binmode_station_write_planned_within(
        table,
        split,
        station,
        rows,
        text,
        plan,
        draft::USUAL_NESTING,
        output,
        size,
    )
}
