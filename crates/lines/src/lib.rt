// The lines that the programs print, each put into a lent line, from its front or from a place on. A function answers where what it put
// ends; what the line has no room for is dropped.
#![tactic(auto)]

ghost use Rattle.spelling.specs.Line.{Puts, pairs};
ghost use Rattle.lines.specs.Lines.{space, refusal_line, accepted_line, card_accepted_line, row_line, card_answer, card_line, count_line};

use draft::Row;
use read_answer::Answer;

// `refused N at P`
pub fn put_refusal(line: &mut [u8], at: usize, number: u8, place: usize) -> usize
    ensures { Puts (refusal_line number place) line.old at line.new result }
{
    let end = spelling::put_pairs(line, at, b"refused ", number as u64, b" at ", place as u64);
    spelling::put_byte(line, end, b'\n')
}

// `rows R used U`
pub fn put_accepted(line: &mut [u8], rows: usize, used: usize) -> usize
    ensures { Puts (accepted_line rows used) line.old 0 line.new result }
{
    let end = spelling::put_pairs(line, 0, b"rows ", rows as u64, b" used ", used as u64);
    spelling::put_byte(line, end, b'\n')
}

// `rows R used U body B`
pub fn put_card_accepted(line: &mut [u8], rows: usize, used: usize, body: usize) -> usize
    ensures { Puts (card_accepted_line rows used body) line.old 0 line.new result }
{
    let mut end = spelling::put_pairs(line, 0, b"rows ", rows as u64, b" used ", used as u64);
    end = spelling::put_pair(line, end, b" body ", body as u64);
    spelling::put_byte(line, end, b'\n')
}

// Two words, each with a space before it.
fn put_words(line: &mut [u8], at: usize, x: u32, y: u32) -> usize
    ensures { Puts (pairs space x space y) line.old at line.new result }
{
    spelling::put_pairs(line, at, b" ", x as u64, b" ", y as u64)
}

// A row's number and its four words.
pub fn put_row(line: &mut [u8], at: usize, r: usize, row: Row) -> usize
    ensures { Puts (row_line r row) line.old at line.new result }
{
    let mut end = spelling::put_digits(line, at, r as u64, 20);
    end = put_words(line, end, row.kind, row.a);
    end = put_words(line, end, row.b, row.end);
    spelling::put_byte(line, end, b'\n')
}

// ` rows R used U` or ` refused N at P`
fn put_card_answer(line: &mut [u8], at: usize, answer: Answer) -> usize
    ensures { Puts (card_answer answer) line.old at line.new result }
{
    match answer {
        Answer::Accepted { rows, used } => {
            spelling::put_pairs(line, at, b" rows ", rows as u64, b" used ", used as u64)
        }
        Answer::Refused { refusal, place } => {
            spelling::put_pairs(
                line,
                at,
                b" refused ",
                draft::number(refusal) as u64,
                b" at ",
                place as u64,
            )
        }
    }
}

// `card N at P bytes B`, and its answer.
pub fn put_card(
    line: &mut [u8],
    at: usize,
    number: usize,
    start: usize,
    size: usize,
    answer: Answer,
) -> usize
    ensures { Puts (card_line number start size answer) line.old at line.new result }
{
    let mut end = spelling::put_pair(line, at, b"card ", number as u64);
    end = spelling::put_pairs(line, end, b" at ", start as u64, b" bytes ", size as u64);
    end = put_card_answer(line, end, answer);
    spelling::put_byte(line, end, b'\n')
}

// `cards N`
pub fn put_count(line: &mut [u8], at: usize, cards: usize) -> usize
    ensures { Puts (count_line cards) line.old at line.new result }
{
    let end = spelling::put_pair(line, at, b"cards ", cards as u64);
    spelling::put_byte(line, end, b'\n')
}
