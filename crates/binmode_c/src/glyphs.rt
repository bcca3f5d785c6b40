// Glyph messages: hyperglyph 1.0, and glyph 0.5 of the old depot.
ghost use Rattle.std.specs.Prelude.{length};
ghost use Rattle.glyph.specs.Answers.{reading};
ghost use Rattle.glyph_reports.specs.Numbers.{report};
ghost use Rattle.glyph_reports.specs.Writing as writing;
ghost use Rattle.binmode.specs.Glyphs.{GlyphReported, StationGlyph, GlyphWritten, StationGlyphWritten};

use glyph::Edition;

// Reads a hyperglyph 1.0 message into a table, nested to at most a limit: the result is 0 for acceptance, or the refusal's number.
#[unsafe(no_mangle)]
pub extern "C" fn binmode_read_hyperglyph(
    message: &[u8],
    table: &mut [u32],
    limit: usize,
    rows: &mut u64,
    used: &mut u64,
    place: &mut u64,
) -> u8
    ensures { GlyphReported (reading Edition.New limit message.now (length table.old)) (length table.old) table.new (report result rows.new used.new place.new) }
{
    binmode::glyphs::binmode_read_hyperglyph(message, table, limit, rows, used, place)
}

// Reads a glyph 0.5 message, likewise.
#[unsafe(no_mangle)]
pub extern "C" fn binmode_read_glyph(
    message: &[u8],
    table: &mut [u32],
    limit: usize,
    rows: &mut u64,
    used: &mut u64,
    place: &mut u64,
) -> u8
    ensures { GlyphReported (reading Edition.Old limit message.now (length table.old)) (length table.old) table.new (report result rows.new used.new place.new) }
{
    binmode::glyphs::binmode_read_glyph(message, table, limit, rows, used, place)
}

// Reads a hyperglyph 1.0 message into a station's share of a table.
#[unsafe(no_mangle)]
pub extern "C" fn binmode_station_read_hyperglyph(
    message: &[u8],
    table: &mut [u32],
    split: usize,
    station: u8,
    limit: usize,
    rows: &mut u64,
    used: &mut u64,
    place: &mut u64,
) -> u8
    ensures { StationGlyph Edition.New limit message.now station split table.old table.new (report result rows.new used.new place.new) }
{
    binmode::glyphs::binmode_station_read_hyperglyph(
        message, table, split, station, limit, rows, used, place,
    )
}

// Reads a glyph 0.5 message into a station's share, likewise.
#[unsafe(no_mangle)]
pub extern "C" fn binmode_station_read_glyph(
    message: &[u8],
    table: &mut [u32],
    split: usize,
    station: u8,
    limit: usize,
    rows: &mut u64,
    used: &mut u64,
    place: &mut u64,
) -> u8
    ensures { StationGlyph Edition.Old limit message.now station split table.old table.new (report result rows.new used.new place.new) }
{
    binmode::glyphs::binmode_station_read_glyph(
        message, table, split, station, limit, rows, used, place,
    )
}

// Writes a table as a hyperglyph 1.0 message, nested to at most a limit: the result is 0 for acceptance, or the refusal's number.
#[unsafe(no_mangle)]
pub extern "C" fn binmode_write_hyperglyph(
    table: &[u32],
    rows: usize,
    text: &[u8],
    limit: usize,
    output: &mut [u8],
    size: &mut u64,
) -> u8
    ensures { GlyphWritten Edition.New limit table.now rows text.now output.old output.new (writing.report result size.new) }
{
    binmode::glyphs::binmode_write_hyperglyph(table, rows, text, limit, output, size)
}

// Writes a table as a glyph 0.5 message, likewise.
#[unsafe(no_mangle)]
pub extern "C" fn binmode_write_glyph(
    table: &[u32],
    rows: usize,
    text: &[u8],
    limit: usize,
    output: &mut [u8],
    size: &mut u64,
) -> u8
    ensures { GlyphWritten Edition.Old limit table.now rows text.now output.old output.new (writing.report result size.new) }
{
    binmode::glyphs::binmode_write_glyph(table, rows, text, limit, output, size)
}

// Writes a station's share of a table as a hyperglyph 1.0 message.
#[unsafe(no_mangle)]
pub extern "C" fn binmode_station_write_hyperglyph(
    table: &[u32],
    split: usize,
    station: u8,
    rows: usize,
    text: &[u8],
    limit: usize,
    output: &mut [u8],
    size: &mut u64,
) -> u8
    ensures { StationGlyphWritten Edition.New limit table.now station split rows text.now output.old output.new (writing.report result size.new) }
{
    binmode::glyphs::binmode_station_write_hyperglyph(
        table, split, station, rows, text, limit, output, size,
    )
}

// Writes a station's share as a glyph 0.5 message, likewise.
#[unsafe(no_mangle)]
pub extern "C" fn binmode_station_write_glyph(
    table: &[u32],
    split: usize,
    station: u8,
    rows: usize,
    text: &[u8],
    limit: usize,
    output: &mut [u8],
    size: &mut u64,
) -> u8
    ensures { StationGlyphWritten Edition.Old limit table.now station split rows text.now output.old output.new (writing.report result size.new) }
{
    binmode::glyphs::binmode_station_write_glyph(
        table, split, station, rows, text, limit, output, size,
    )
}
