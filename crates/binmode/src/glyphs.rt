// Glyph messages for programs in C and Rust: hyperglyph 1.0, and glyph 0.5 of the old depot. There are functions for each of the two, so that no third
// edition can be named.
ghost use Rattle.std.specs.Prelude.{length};
ghost use Rattle.glyph.specs.Answers.{reading};
ghost use Rattle.glyph_reports.specs.Numbers.{report};
ghost use Rattle.glyph_reports.specs.Writing as writing;
ghost use Rattle.binmode.specs.Glyphs.{GlyphReported, StationGlyph, GlyphWritten, StationGlyphWritten};

use glyph::Edition;
use shares::{split_for, station_of};

// Reads a hyperglyph 1.0 message into a table, nested to at most a limit: the result is 0 for acceptance, or the refusal's number.
pub fn binmode_read_hyperglyph(
    message: &[u8],
    table: &mut [u32],
    limit: usize,
    rows: &mut u64,
    used: &mut u64,
    place: &mut u64,
) -> u8
    ensures { GlyphReported (reading Edition.New limit message.now (length table.old)) (length table.old) table.new (report result rows.new used.new place.new) }
{
    let answer = glyph_reader::read(message, table, Edition::New, limit);
    glyph_reports::message(answer, rows, used, place)
}

// Reads a glyph 0.5 message, likewise.
pub fn binmode_read_glyph(
    message: &[u8],
    table: &mut [u32],
    limit: usize,
    rows: &mut u64,
    used: &mut u64,
    place: &mut u64,
) -> u8
    ensures { GlyphReported (reading Edition.Old limit message.now (length table.old)) (length table.old) table.new (report result rows.new used.new place.new) }
{
    let answer = glyph_reader::read(message, table, Edition::Old, limit);
    glyph_reports::message(answer, rows, used, place)
}

// Reads a hyperglyph 1.0 message into a station's share of a table.
pub fn binmode_station_read_hyperglyph(
    message: &[u8],
    table: &mut [u32],
    split: usize,
    station: u8,
    limit: usize,
    rows: &mut u64,
    used: &mut u64,
    place: &mut u64,
) -> u8
    ensures { StationGlyph Edition.New limit message.now station split table.old table.new (report result rows.new used.new place.new) }
{
    let row = split_for(station, split);
    let share = station_of(station);
    let answer = glyph_stations::read(message, table, row, share, Edition::New, limit);
    glyph_reports::station(answer, rows, used, place)
}

// Reads a glyph 0.5 message into a station's share, likewise.
pub fn binmode_station_read_glyph(
    message: &[u8],
    table: &mut [u32],
    split: usize,
    station: u8,
    limit: usize,
    rows: &mut u64,
    used: &mut u64,
    place: &mut u64,
) -> u8
    ensures { StationGlyph Edition.Old limit message.now station split table.old table.new (report result rows.new used.new place.new) }
{
    let row = split_for(station, split);
    let share = station_of(station);
    let answer = glyph_stations::read(message, table, row, share, Edition::Old, limit);
    glyph_reports::station(answer, rows, used, place)
}

// Writes a table as a hyperglyph 1.0 message, nested to at most a limit: the result is 0 for acceptance, or the refusal's number.
pub fn binmode_write_hyperglyph(
    table: &[u32],
    rows: usize,
    text: &[u8],
    limit: usize,
    output: &mut [u8],
    size: &mut u64,
) -> u8
    ensures { GlyphWritten Edition.New limit table.now rows text.now output.old output.new (writing.report result size.new) }
{
    let answer = glyph_writer::write(table, rows, text, Edition::New, limit, output);
    glyph_reports::writing::written(answer, size)
}

// Writes a table as a glyph 0.5 message, likewise.
pub fn binmode_write_glyph(
    table: &[u32],
    rows: usize,
    text: &[u8],
    limit: usize,
    output: &mut [u8],
    size: &mut u64,
) -> u8
    ensures { GlyphWritten Edition.Old limit table.now rows text.now output.old output.new (writing.report result size.new) }
{
    let answer = glyph_writer::write(table, rows, text, Edition::Old, limit, output);
    glyph_reports::writing::written(answer, size)
}

// Writes a station's share of a table as a hyperglyph 1.0 message.
pub fn binmode_station_write_hyperglyph(
    table: &[u32],
    split: usize,
    station: u8,
    rows: usize,
    text: &[u8],
    limit: usize,
    output: &mut [u8],
    size: &mut u64,
) -> u8
    ensures { StationGlyphWritten Edition.New limit table.now station split rows text.now output.old output.new (writing.report result size.new) }
{
    let row = split_for(station, split);
    let share = station_of(station);
    let answer = glyph_stations::write(table, row, share, rows, text, Edition::New, limit, output);
    glyph_reports::writing::station(answer, size)
}

// Writes a station's share as a glyph 0.5 message, likewise.
pub fn binmode_station_write_glyph(
    table: &[u32],
    split: usize,
    station: u8,
    rows: usize,
    text: &[u8],
    limit: usize,
    output: &mut [u8],
    size: &mut u64,
) -> u8
    ensures { StationGlyphWritten Edition.Old limit table.now station split rows text.now output.old output.new (writing.report result size.new) }
{
    let row = split_for(station, split);
    let share = station_of(station);
    let answer = glyph_stations::write(table, row, share, rows, text, Edition::Old, limit, output);
    glyph_reports::writing::station(answer, size)
}
