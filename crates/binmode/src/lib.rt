// Reading, writing and job files for programs in C and Rust, which call the functions here by those of `binmode_c`. Each function reports the answer
// of the call below it, in the numbers that are lent, by the crates of reports.
#![tactic(auto)]

pub mod glyphs; // glyphs.rt: hyperglyph 1.0 and glyph 0.5
pub mod in_pieces; // in_pieces.rt: messages in pieces
pub mod job_defaults; // job_defaults.rt: job defaults behind a card
pub mod lookups; // lookups.rt: looking up members, and positions
pub mod member_index; // member_index.rt: an index of members
pub mod stations; // stations.rt: stations four and five on one table
pub mod planned; // planned.rt: writing with a plan, and prices that prove it shortest
pub mod usual; // usual.rt: the calls that state no limit of nesting
pub mod version; // version.rt: the version of the interface

ghost use Rattle.std.specs.Prelude.{◌≡◌, length, drop};
ghost use Rattle.read_answer.specs.Answers.{reading};
ghost use Rattle.records.specs.Job.{find, body_of};
ghost use Rattle.binmode.specs.Reported.{Reported, WriteReported};
ghost use Rattle.binmode.specs.Cards.{CardReported};
ghost use Rattle.read_reports.specs.Numbers.{finding, finding_of};

// Reads a message into a table, nested to at most a limit, and reports document 01's numbers: the result is 0 for acceptance, or the refusal's number.
pub fn binmode_read_within(
    message: &[u8],
    table: &mut [u32],
    limit: usize,
    rows: &mut u64,
    used: &mut u64,
    place: &mut u64,
) -> u8
    ensures { Reported (reading limit message.now (length table.old)) (length table.old) table.new result rows.new used.new place.new }
{
    read_reports::message(reader::read(message, table, limit), rows, used, place)
}

// Writes a table with a stated number of rows, whose texts lie in the text bytes, and reports document 01's numbers: the result is 0
// for acceptance, or the refusal's number.
pub fn binmode_write_within(
    table: &[u32],
    rows: usize,
    text: &[u8],
    limit: usize,
    output: &mut [u8],
    size: &mut u64,
) -> u8
    ensures { WriteReported limit table.now rows text.now output.old output.new result size.new }
{
    write_reports::written(writer::write(table, rows, text, limit, output), size)
}

// Reads a card of a job file into a table, and reports document 02's numbers: the result is 0 for acceptance, or the refusal's number.
pub fn binmode_read_card(
    file: &[u8],
    number: usize,
    table: &mut [u32],
    rows: &mut u64,
    used: &mut u64,
    place: &mut u64,
    body: &mut u64,
) -> u8
    ensures { CardReported file.now (length table.old) (body_of file.now number) table.new result rows.new used.new place.new body.new }
{
    read_reports::card(job::read_card(file, number, table), rows, used, place, body)
}

// Finds the next card of a job file, for one who goes from card to card: `number` cards stand before the record at `from`. Reports where
// its body lies; the result is 0, or the refusal's number.
pub fn binmode_next_card(
    file: &[u8],
    number: usize,
    from: usize,
    start: &mut u64,
    size: &mut u64,
    place: &mut u64,
) -> u8
    ensures { finding result start.new size.new place.new ≡ finding_of (find number number from 0 (drop from file.now)) }
{
    read_reports::found(
        card_search::find_next(file, number, from),
        start,
        size,
        place,
    )
}
