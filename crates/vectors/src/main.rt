// Lists the messages on standard input, each on the line behind its name's: those of document 01, the examples and counter-examples of the
// draft (document 002), and faults, Doubles, dates and keys by document 02's rules. A byte is a printable character, or `\` and two
// hexadecimal digits; a message behind `8 words ` is read into a table of that size.
#![tactic(auto)]

ghost use Rattle.std.specs.Prelude.{◌<◌};

// The value of a hexadecimal digit; 0 for any other byte.
// Stays: `char::to_digit` takes capital letters too, which are 0 here.
fn digit(b: u8) -> u8
    ensures { result < 16 }
{
    match b {
        b'0'..=b'9' => b - b'0',
        b'a'..=b'f' => b - b'a' + 10,
        _ => 0,
    }
}

// The bytes that a line stands for, as many as there is room for.
fn unescape<'a>(line: &[u8], room: &'a mut [u8]) -> &'a [u8] {
    let mut rest = line;
    let mut n = 0;
    for slot in room.iter_mut() {
        match rest {
            [] => break,
            [b'\\', high, low, behind @ ..] => {
                *slot = digit(*high) * 16 + digit(*low);
                rest = behind;
            }
            [b, behind @ ..] => {
                *slot = *b;
                rest = behind;
            }
        }
        n += 1;
    }
    &room[..n]
}

fn list(rt: &HostRuntime, message: &[u8], table: &mut [u32], listing: &mut [u8]) {
    let size = listings::list(message, table, listing);
    console::write(rt, content::part(listing, 0, size));
}

// The message of a line, into the table that the line asks for.
fn run(rt: &HostRuntime, line: &[u8], room: &mut [u8], listing: &mut [u8]) {
    match line.strip_prefix(b"8 words ") {
        Some(line) => list(rt, unescape(line, room), &mut [0u32; 8], listing),
        None => {
            let mut table = [0u32; 16384];
            list(rt, unescape(line, room), &mut table, listing)
        }
    }
}

// Each name and its message.
fn run_all(rt: &HostRuntime, input: &[u8], room: &mut [u8], listing: &mut [u8]) {
    let mut lines = input.split_inclusive(|b| *b == b'\n');
    while let Some(name) = lines.next() {
        let line = lines.next().unwrap_or(&[]);
        console::write(rt, name);
        run(rt, line.strip_suffix(b"\n").unwrap_or(line), room, listing);
    }
}

fn main(rt: HostRuntime) {
    let mut input = [0u8; 65536];
    let mut room = [0u8; 512];
    let mut listing = [0u8; 430158];
    if let Ok(input) = console::read_all(&mut rt.stdin(), &mut input) {
        run_all(&rt, input, &mut room, &mut listing);
    }
}
