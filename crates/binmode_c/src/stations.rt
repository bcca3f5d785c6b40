// Stations four and five on one table.
ghost use Rattle.std.specs.Prelude.{◌≡◌, length};
ghost use Rattle.shares.specs.Share.{no_share, station_of, split_for, share_for, on_share};
ghost use Rattle.lookup_answer.specs.Reports.{reported};
ghost use Rattle.placing.specs.Placing.{at};
ghost use Rattle.station_tables.specs.Answers.{lookup_answer, lookup_report_of, position_answer};
ghost use Rattle.read_reports.specs.Numbers.{report, card_report};
ghost use Rattle.write_reports.specs.Numbers as writing;
ghost use Rattle.station_reports.specs.Numbers.{lying, lying_of, StationPlaced};
ghost use Rattle.binmode.specs.Stations.{StationRead, StationCard, StationPiece, StationEnd, StationWrote, StationPlanned};

// Where a station's share of a table lies: its first word and how many words it has. The result is 0, or 22.
#[unsafe(no_mangle)]
pub extern "C" fn binmode_share(
    table_words: usize,
    split: usize,
    station: u8,
    first: &mut u64,
    size: &mut u64,
) -> u8
    ensures { lying result first.new size.new ≡ lying_of (share_for table_words (split_for station split) (station_of station)) }
{
    binmode::stations::binmode_share(table_words, split, station, first, size)
}

// Reads a message into a station's share of a table: the result is 0 for acceptance, or the refusal's number; every number lent is set.
#[unsafe(no_mangle)]
pub extern "C" fn binmode_station_read_within(
    message: &[u8],
    table: &mut [u32],
    split: usize,
    station: u8,
    limit: usize,
    rows: &mut u64,
    used: &mut u64,
    place: &mut u64,
) -> u8
    ensures { StationRead limit message.now station split table.old table.new (report result rows.new used.new place.new) }
{
    binmode::stations::binmode_station_read_within(
        message, table, split, station, limit, rows, used, place,
    )
}

// Reads a card of a job file into a station's share of a table, likewise.
#[unsafe(no_mangle)]
pub extern "C" fn binmode_station_read_card(
    file: &[u8],
    number: usize,
    table: &mut [u32],
    split: usize,
    station: u8,
    rows: &mut u64,
    used: &mut u64,
    place: &mut u64,
    body: &mut u64,
) -> u8
    ensures { StationCard file.now number station split table.old table.new (card_report result rows.new used.new place.new body.new) }
{
    binmode::stations::binmode_station_read_card(
        file, number, table, split, station, rows, used, place, body,
    )
}

// Takes the next piece of a message into a station's share, and reports what stands then. After 22 the state is as it was.
#[unsafe(no_mangle)]
pub extern "C" fn binmode_station_pieces_next_within(
    state: &mut [u64; 6],
    piece: &[u8],
    room: &mut [u8],
    table: &mut [u32],
    split: usize,
    station: u8,
    limit: usize,
) -> u8
    ensures { StationPiece limit state.old piece.now station split room.old table.old state.new room.new table.new result }
{
    binmode::stations::binmode_station_pieces_next_within(
        state, piece, room, table, split, station, limit,
    )
}

// Says that no more pieces come, likewise.
#[unsafe(no_mangle)]
pub extern "C" fn binmode_station_pieces_end_within(
    state: &mut [u64; 6],
    room: &[u8],
    table: &mut [u32],
    split: usize,
    station: u8,
    limit: usize,
) -> u8
    ensures { StationEnd limit state.old (length room.now) station split table.old state.new table.new result }
{
    binmode::stations::binmode_station_pieces_end_within(state, room, table, split, station, limit)
}

// Writes a station's share of a table: the result is 0 for acceptance, or the refusal's number.
#[unsafe(no_mangle)]
pub extern "C" fn binmode_station_write_within(
    table: &[u32],
    split: usize,
    station: u8,
    rows: usize,
    text: &[u8],
    limit: usize,
    output: &mut [u8],
    size: &mut u64,
) -> u8
    ensures { StationWrote limit table.now station split rows text.now output.old output.new (writing.report result size.new) }
{
    binmode::stations::binmode_station_write_within(
        table, split, station, rows, text, limit, output, size,
    )
}

// Writes a station's share of a table by a plan, likewise.
#[unsafe(no_mangle)]
pub extern "C" fn binmode_station_write_planned_within(
    table: &[u32],
    split: usize,
    station: u8,
    rows: usize,
    text: &[u8],
    plan: &[u8],
    limit: usize,
    output: &mut [u8],
    size: &mut u64,
) -> u8
    ensures { StationPlanned limit table.now station split rows text.now plan.now output.old output.new (writing.plan_report result size.new) }
{
    binmode::stations::binmode_station_write_planned_within(
        table, split, station, rows, text, plan, limit, output, size,
    )
}

// Looks up a member of the Struct of a row of a station's share: the result is 0, or the refusal's number; every number lent is set.
#[unsafe(no_mangle)]
pub extern "C" fn binmode_station_lookup(
    table: &[u32],
    split: usize,
    station: u8,
    rows: usize,
    text: &[u8],
    row: usize,
    key: &[u8],
    sort: &mut u8,
    number: &mut i64,
    decimal: &mut f64,
    offset: &mut u64,
    size: &mut u64,
) -> u8
    ensures { reported result sort.new number.new decimal.new offset.new size.new ≡ lookup_report_of (on_share (station_of station) (split_for station split) table.now (lookup_answer rows text.now row key.now) (Err no_share)) }
{
    binmode::stations::binmode_station_lookup(
        table, split, station, rows, text, row, key, sort, number, decimal, offset, size,
    )
}

// The position in the Struct of a row of a station's share: the result is 0, or the refusal's number and three plus zeros.
#[unsafe(no_mangle)]
pub extern "C" fn binmode_station_position(
    table: &[u32],
    split: usize,
    station: u8,
    rows: usize,
    text: &[u8],
    row: usize,
    x: &mut f64,
    y: &mut f64,
    turn: &mut f64,
) -> u8
    ensures { StationPlaced (on_share (station_of station) (split_for station split) table.now (position_answer rows text.now row) (Err no_share)) result (at x.new y.new turn.new) }
{
    binmode::stations::binmode_station_position(table, split, station, rows, text, row, x, y, turn)
}
