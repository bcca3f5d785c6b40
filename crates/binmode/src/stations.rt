// Stations four and five on one table, for programs in C and Rust. A station is the number 4 or 5; for any other number there is no share, which is
// refused with 22 as a row is that does not split the table.
ghost use Rattle.std.specs.Prelude.{◌≡◌, length};
ghost use Rattle.shares.specs.Share.{no_share, station_of, split_for, share_for, on_share};
ghost use Rattle.lookup_answer.specs.Reports.{reported};
ghost use Rattle.placing.specs.Placing.{at};
ghost use Rattle.station_tables.specs.Answers.{lookup_answer, lookup_report_of, position_answer};
ghost use Rattle.read_reports.specs.Numbers.{report, card_report};
ghost use Rattle.write_reports.specs.Numbers as writing;
ghost use Rattle.station_reports.specs.Numbers.{lying, lying_of, StationPlaced};
ghost use Rattle.binmode.specs.Stations.{StationRead, StationCard, StationPiece, StationEnd, StationWrote, StationPlanned};

use shares::{split_for, station_of};

// Where a station's share of a table lies: its first word and how many words it has. The result is 0, or 22.
pub fn binmode_share(
    table_words: usize,
    split: usize,
    station: u8,
    first: &mut u64,
    size: &mut u64,
) -> u8
    ensures { lying result first.new size.new ≡ lying_of (share_for table_words (split_for station split) (station_of station)) }
{
    station_reports::share(table_words, split, station, first, size)
}

// Reads a message into a station's share of a table: the result is 0 for acceptance, or the refusal's number; every number lent is set.
pub fn binmode_station_read_within(
    message: &[u8],
    table: &mut [u32],
    split: usize,
    station: u8,
    limit: usize,
    rows: &mut u64,
    used: &mut u64,
    place: &mut u64,
) -> u8
    ensures { StationRead limit message.now station split table.old table.new (report result rows.new used.new place.new) }
{
    let row = split_for(station, split);
    let answer = station_reading::read(message, table, row, station_of(station), limit);
    station_reports::message(answer, rows, used, place)
}

// Reads a card of a job file into a station's share of a table, likewise.
pub fn binmode_station_read_card(
    file: &[u8],
    number: usize,
    table: &mut [u32],
    split: usize,
    station: u8,
    rows: &mut u64,
    used: &mut u64,
    place: &mut u64,
    body: &mut u64,
) -> u8
    ensures { StationCard file.now number station split table.old table.new (card_report result rows.new used.new place.new body.new) }
{
    let row = split_for(station, split);
    let answer = station_reading::read_card(file, number, table, row, station_of(station));
    station_reports::card(answer, rows, used, place, body)
}

// Takes the next piece of a message into a station's share, and reports what stands then. After 22 the state is as it was.
pub fn binmode_station_pieces_next_within(
    state: &mut [u64; 6],
    piece: &[u8],
    room: &mut [u8],
    table: &mut [u32],
    split: usize,
    station: u8,
    limit: usize,
) -> u8
    ensures { StationPiece limit state.old piece.now station split room.old table.old state.new room.new table.new result }
{
    let before = piece_reports::state_of(state);
    let row = split_for(station, split);
    let answer = station_pieces::next(before, piece, room, table, row, station_of(station), limit);
    station_reports::piece(answer, state)
}

// Says that no more pieces come, likewise.
pub fn binmode_station_pieces_end_within(
    state: &mut [u64; 6],
    room: &[u8],
    table: &mut [u32],
    split: usize,
    station: u8,
    limit: usize,
) -> u8
    ensures { StationEnd limit state.old (length room.now) station split table.old state.new table.new result }
{
    let before = piece_reports::state_of(state);
    let row = split_for(station, split);
    let answer = station_pieces::end(before, room, table, row, station_of(station), limit);
    station_reports::piece(answer, state)
}

// Writes a station's share of a table: the result is 0 for acceptance, or the refusal's number.
pub fn binmode_station_write_within(
    table: &[u32],
    split: usize,
    station: u8,
    rows: usize,
    text: &[u8],
    limit: usize,
    output: &mut [u8],
    size: &mut u64,
) -> u8
    ensures { StationWrote limit table.now station split rows text.now output.old output.new (writing.report result size.new) }
{
    let row = split_for(station, split);
    let answer = station_tables::write(table, row, station_of(station), rows, text, limit, output);
    station_reports::written(answer, size)
}

// Writes a station's share of a table by a plan, likewise.
pub fn binmode_station_write_planned_within(
    table: &[u32],
    split: usize,
    station: u8,
    rows: usize,
    text: &[u8],
    plan: &[u8],
    limit: usize,
    output: &mut [u8],
    size: &mut u64,
) -> u8
    ensures { StationPlanned limit table.now station split rows text.now plan.now output.old output.new (writing.plan_report result size.new) }
{
    let row = split_for(station, split);
    let share = station_of(station);
    let answer = station_plans::write(table, row, share, rows, text, plan, limit, output);
    station_reports::planned(answer, size)
}

// Looks up a member of the Struct of a row of a station's share: the result is 0, or the refusal's number; every number lent is set.
pub fn binmode_station_lookup(
    table: &[u32],
    split: usize,
    station: u8,
    rows: usize,
    text: &[u8],
    row: usize,
    key: &[u8],
    sort: &mut u8,
    number: &mut i64,
    decimal: &mut f64,
    offset: &mut u64,
    size: &mut u64,
) -> u8
    ensures { reported result sort.new number.new decimal.new offset.new size.new ≡ lookup_report_of (on_share (station_of station) (split_for station split) table.now (lookup_answer rows text.now row key.now) (Err no_share)) }
{
    let at = split_for(station, split);
    let answer = station_tables::lookup(table, at, station_of(station), rows, text, row, key);
    station_reports::member(answer, sort, number, decimal, offset, size)
}

// The position in the Struct of a row of a station's share: the result is 0, or the refusal's number and three plus zeros.
pub fn binmode_station_position(
    table: &[u32],
    split: usize,
    station: u8,
    rows: usize,
    text: &[u8],
    row: usize,
    x: &mut f64,
    y: &mut f64,
    turn: &mut f64,
) -> u8
    ensures { StationPlaced (on_share (station_of station) (split_for station split) table.now (position_answer rows text.now row) (Err no_share)) result (at x.new y.new turn.new) }
{
    let at = split_for(station, split);
    let answer = station_tables::position_of(table, at, station_of(station), rows, text, row);
    station_reports::position(answer, x, y, turn)
}
