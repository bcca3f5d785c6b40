// Whole listings, each put into a lent line: a line for the answer, and one for each row. A function answers where what it put ends; what
// the line has no room for is dropped.
#![tactic(auto)]

ghost use Rattle.std.specs.Prelude.{◌≡◌, ◌++◌, min, length};
ghost use Rattle.spelling.specs.Line.{Puts};
ghost use Rattle.lines.specs.Lines.{card_accepted_line};
ghost use Rattle.listings.specs.Listing.{table_lines, listing, Lists};

use read_answer::Answer;

// A line for each row, from `at` on: as many as are stated, and as the table has room for.
fn put_rows(line: &mut [u8], at: usize, table: &[u32], rows: usize) -> usize
    ensures { Puts (table_lines table.now rows) line.old at line.new result }
{
    let room = table::room_of(table.len());
    let last = least(rows, room);
    let mut end = at;
    let mut r = 0;
    while r < last {
        end = lines::put_row(line, end, r, table::get_row(table, room, r));
        r += 1;
    }
    end
}

fn least(a: usize, b: usize) -> usize
    ensures { result ≡ min a b }
{
    if a < b { a } else { b }
}

// The listing of an answer and its table.
pub fn put_listing(line: &mut [u8], answer: Answer, table: &[u32]) -> usize
    ensures { Puts (listing answer table.now) line.old 0 line.new result }
{
    match answer {
        Answer::Accepted { rows, used } => {
            let end = lines::put_accepted(line, rows, used);
            put_rows(line, end, table, rows)
        }
        Answer::Refused { refusal, place } => lines::put_refusal(
            line,
            0,
            draft::number(refusal),
            place,
        ),
    }
}

// Reads a message into a table, and puts its listing.
pub fn list(message: &[u8], table: &mut [u32], line: &mut [u8]) -> usize
    ensures { Lists message.now (length table.old) table.new line.old line.new result }
{
    let answer = reader::read(message, table, draft::MOST_NESTING);
    put_listing(line, answer, table)
}

// `rows R used U body B`, and a line for each row.
pub fn put_card_rows(line: &mut [u8], rows: usize, used: usize, body: usize, table: &[u32]) -> usize
    ensures { Puts (card_accepted_line rows used body ++ table_lines table.now rows) line.old 0 line.new result }
{
    let end = lines::put_card_accepted(line, rows, used, body);
    put_rows(line, end, table, rows)
}
