// Answers questions from standard input, a line each: what reading a message answers and leaves in the table, and what writing a
// table answers and leaves in the output. What is lent is full of rubbish before each call. second/src/questions.rs says how a line
// is made up; it made the files stdin and stdout. A line has the words of a table row by row, whatever the table's layout, and then
// those that are no row's.
#![tactic(auto)]

ghost use Rattle.std.specs.Prelude.{◌≡◌, ◌≤◌, ◌<◌, length, IfSome};

use draft::Row;
use std::io::Print;

// The value of a digit.
// Stays: `char::to_digit` takes capital letters too. `vectors` has a table like it, in which any other byte counts as 0, and to share five
// lines would take a library with a contract and an edit.
fn digit(b: u8) -> Option<u8>
    ensures { IfSome result (λ d. d < 16) }
{
    match b {
        b'0'..=b'9' => Some(b - b'0'),
        b'a'..=b'f' => Some(b - b'a' + 10),
        _ => None,
    }
}

// Bytes in hexadecimal, `-` for none, into a buffer.
fn bytes<'a>(digits: &[u8], room: &'a mut [u8]) -> Option<&'a [u8]> {
    if digits == b"-".as_slice() {
        return Some(&[]);
    }
    let (pairs, []) = digits.as_chunks::<2>() else {
        return None;
    };
    let bytes = room.get_mut(..pairs.len())?;
    for (b, [high, low]) in bytes.iter_mut().zip(pairs) {
        *b = digit(*high)? * 16 + digit(*low)?;
    }
    Some(bytes)
}

// Words in decimal with commas between, `-` for none, into a table.
fn words<'a>(list: &[u8], room: &'a mut [u32]) -> Option<&'a [u32]> {
    if list == b"-".as_slice() {
        return Some(&[]);
    }
    let mut n = 0;
    for word in list.split(|b| *b == b',') {
        *room.get_mut(n)? = u32::try_from(spelling::parse(word)?).ok()?;
        n += 1;
    }
    Some(&room[..n])
}

// Word i of a table, row by row.
fn word_listed(table: &[u32], i: usize) -> u32
    requires { i < length table.now }
{
    let room = table::room_of(table.len());
    if room <= i / 4 {
        return table[i];
    }
    let row = table::get_row(table, room, i / 4);
    [row.kind, row.a, row.b, row.end][i % 4]
}

// The words of a list, row by row, into a table of as many words.
fn put_listed(list: &[u32], table: &mut [u32])
    requires { length list.now ≡ length table.old }
{
    table.copy_from_slice(list);
    let room = table::room_of(table.len());
    for r in 0..room {
        let row = Row {
            kind: list[r * 4],
            a: list[r * 4 + 1],
            b: list[r * 4 + 2],
            end: list[r * 4 + 3],
        };
        table::put_row(table, room, r, row);
    }
}

// How many words there are up to the last that is not 0, row by row.
fn words_shown(table: &[u32]) -> usize
    ensures { result ≤ length table.now }
{
    for i in (0..table.len()).rev() {
        if word_listed(table, i) != 0 {
            return i + 1;
        }
    }
    0
}

// A number, and a space behind it, which is a write of its own: it says on standard error what standard output did not take.
fn write_number(rt: &HostRuntime, n: usize) {
    let _ = print!(rt; "{n}");
    console::write(rt, b" ");
}

// The words up to the last that is not 0, row by row, and the line's end.
fn write_words(rt: &HostRuntime, table: &[u32]) {
    let n = words_shown(table);
    if n == 0 {
        console::write(rt, b"-");
    }
    for i in 0..n {
        if i > 0 {
            console::write(rt, b",");
        }
        let _ = rt.print(word_listed(table, i));
    }
    console::write(rt, b"\n");
}

// The bytes up to the last that is not 0, and the line's end.
fn write_bytes(rt: &HostRuntime, output: &[u8]) {
    match output.iter().rposition(|b| *b != 0) {
        Some(last) => {
            for b in &output[..=last] {
                let _ = print!(rt; "{b:02x}");
            }
        }
        None => {
            console::write(rt, b"-");
        }
    }
    console::write(rt, b"\n");
}

// The number, the place, the rows, the bytes used, and the table.
fn read(rt: &HostRuntime, message: &[u8], table: &mut [u32]) {
    table.fill(0xa5a5a5a5);
    let answer = reader::read(message, table, draft::MOST_NESTING);
    match answer {
        read_answer::Answer::Accepted { rows, used } => {
            console::write(rt, b"0 0 ");
            write_number(rt, rows);
            write_number(rt, used);
        }
        read_answer::Answer::Refused { refusal, place } => {
            write_number(rt, draft::number(refusal) as usize);
            write_number(rt, place);
            console::write(rt, b"0 0 ");
        }
    }
    write_words(rt, table);
}

// The number, the length, and the output.
fn write(rt: &HostRuntime, table: &[u32], rows: usize, text: &[u8], output: &mut [u8]) {
    output.fill(0xa5);
    let answer = writer::write(table, rows, text, draft::MOST_NESTING, output);
    match answer {
        Ok(length) => {
            console::write(rt, b"0 ");
            write_number(rt, length);
        }
        Err(refusal) => {
            write_number(rt, draft::number(refusal) as usize);
            console::write(rt, b"0 ");
        }
    }
    write_bytes(rt, output);
}

// The buffers have room for one byte over a message's or a text's limit, and for more words and bytes than a table or an output needs. A line
// that asks for more is ill-formed.

// `MESSAGE WORDS`: writes its answer, or answers none if it is ill-formed.
fn answer_read(rt: &HostRuntime, line: &[u8]) -> Option<()> {
    let mut bytes_room = [0u8; 65537];
    let mut table_room = [0u32; 20000];
    let mut fields = line.splitn(2, |b| *b == b' ');
    let message = bytes(fields.next()?, &mut bytes_room)?;
    let words = spelling::parse(fields.next()?)?;
    read(rt, message, table_room.get_mut(..words)?);
    Some(())
}

// `TABLE ROWS TEXT LENGTH`: likewise, with the table's words in a list first.
fn answer_write(rt: &HostRuntime, line: &[u8]) -> Option<()> {
    let mut list_room = [0u32; 20000];
    let mut bytes_room = [0u8; 65537];
    let mut table_room = [0u32; 20000];
    let mut output_room = [0u8; 70000];
    let mut fields = line.splitn(4, |b| *b == b' ');
    let list = words(fields.next()?, &mut list_room)?;
    let rows = spelling::parse(fields.next()?)?;
    let text = bytes(fields.next()?, &mut bytes_room)?;
    let length = spelling::parse(fields.next()?)?;
    let table = table_room.get_mut(..list.len())?;
    put_listed(list, table);
    write(rt, table, rows, text, output_room.get_mut(..length)?);
    Some(())
}

// Writes the answer of a line that begins with `read ` or `write `, or answers none if the line is ill-formed.
fn answer(rt: &HostRuntime, line: &[u8]) -> Option<()> {
    if let Some(fields) = line.strip_prefix(b"read ") {
        return answer_read(rt, fields);
    }
    answer_write(rt, line.strip_prefix(b"write ")?)
}

// For each line its answer, or that it is ill-formed.
fn answer_all(rt: &HostRuntime, input: &[u8]) {
    for line in input.split_inclusive(|b| *b == b'\n') {
        let line = line.strip_suffix(b"\n").unwrap_or(line);
        if answer(rt, line).is_none() {
            console::write(rt, b"ill-formed\n");
        }
    }
}

// What of the input is past its first 400,000 bytes is dropped.
fn main(rt: HostRuntime) {
    let mut room = [0u8; 400000];
    match console::read_all(&mut rt.stdin(), &mut room) {
        Ok(input) => answer_all(&rt, input),
        Err(error) => console::fail(&rt, b"standard input", error),
    }
}
