// Prints a text of a card, with a job's defaults behind it: `default_text CARDFILE ROW DEFAULTSFILE DEFAULTSROW KEY`. The text is the part that
// `defaults::text_of` hands out, as bytes and not escaped, behind whose it is: `card TEXT` or `defaults TEXT`. Otherwise `refused N at 0`; and if
// a message is refused, whose, `card refused N at P` or `defaults refused N at P`.
#![tactic(auto)]

use read_answer::Answer;

// `refused N at P`, behind what was refused.
fn write_refusal(rt: &HostRuntime, what: &[u8], number: u8, place: usize) {
    let mut space = [0u8; 160];
    let n = lines::put_refusal(&mut space, 0, number, place);
    console::write(rt, what);
    console::write(rt, content::part(&space, 0, n));
}

// The text, behind whose it is.
fn write_text(rt: &HostRuntime, whose: &[u8], text: &[u8]) {
    console::write(rt, whose);
    console::write(rt, text);
    console::write(rt, b"\n");
}

// The rows of a message that was read into a table. If it is refused, that is printed, behind whose it is.
fn rows_of(rt: &HostRuntime, whose: &[u8], message: &[u8], table: &mut [u32]) -> Option<usize> {
    let answer = reader::read(message, table, draft::MOST_NESTING);
    match answer {
        Answer::Accepted { rows, used: _ } => Some(rows),
        Answer::Refused { refusal, place } => {
            write_refusal(rt, whose, draft::number(refusal), place);
            None
        }
    }
}

// What the card has under the key, or behind it the defaults. The card is read first. Each table has room for 4,096 rows.
fn print(
    rt: &HostRuntime,
    card: &[u8],
    row: usize,
    defaults: &[u8],
    defaults_row: usize,
    key: &[u8],
) -> Option<()> {
    let mut table = [0u32; 16384];
    let mut defaults_table = [0u32; 16384];
    let rows = rows_of(rt, b"card ", card, &mut table)?;
    let defaults_rows = rows_of(rt, b"defaults ", defaults, &mut defaults_table)?;
    let mut number = 0;
    let mut from = 0;
    let text = defaults::text_of(
        &table,
        rows,
        card,
        row,
        &defaults_table,
        defaults_rows,
        defaults,
        defaults_row,
        key,
        &mut number,
        &mut from,
    );
    match (number, from) {
        (0, 0) => write_text(rt, b"card ", text),
        (0, _) => write_text(rt, b"defaults ", text),
        _ => write_refusal(rt, b"", number, 0),
    }
    Some(())
}

// The number that a word of the command is; one that is none is said on standard error.
fn number_at(rt: &HostRuntime, at: usize) -> Option<usize> {
    let mut space = [0u8; 4096];
    let word = console::word(rt, at, &mut space);
    let number = word.ok().and_then(spelling::parse);
    if number.is_none() {
        console::complain(
            rt,
            b"default_text: ROW or DEFAULTSROW is not a number, or too large\n",
        );
    }
    number
}

// With the two messages, the rows of the two Structs, and the key, the command's last word. A message over 65,536 bytes is refused, so no
// more than one byte past that is kept of each.
fn print_words(rt: &HostRuntime) -> Option<()> {
    let mut card_room = [0u8; 65537];
    let mut defaults_room = [0u8; 65537];
    let mut key_room = [0u8; 4096];
    let card = console::read_file(rt, 1, &mut card_room).ok()?;
    let defaults = console::read_file(rt, 3, &mut defaults_room).ok()?;
    let row = number_at(rt, 2)?;
    let defaults_row = number_at(rt, 4)?;
    let key = console::word(rt, 5, &mut key_room)
        .inspect_err(|error| console::fail(rt, b"KEY", *error))
        .ok()?;
    print(rt, card, row, defaults, defaults_row, key)
}

fn main(rt: HostRuntime) {
    let usage = b"usage: default_text CARDFILE ROW DEFAULTSFILE DEFAULTSROW KEY\n";
    if console::has_helped(&rt, usage) {
        return;
    }
    if console::word_count(&rt) != 6 {
        console::complain(&rt, usage);
        return;
    }
    let _ = print_words(&rt);
}
