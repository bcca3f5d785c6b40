// Reads one message, from standard input or from the file that is named, and writes its written form, the bytes alone. A refusal, the
// reader's or the writer's, is a line on standard error, and nothing is written then.
#![tactic(auto)]

fn complain(rt: &HostRuntime, number: u8, place: usize) {
    let mut space = [0u8; 160];
    let n = lines::put_refusal(&mut space, 0, number, place);
    console::complain(rt, content::part(&space, 0, n));
}

// The written form of a table that was read, whose texts lie in its message.
fn write_form(rt: &HostRuntime, table: &[u32], rows: usize, message: &[u8], output: &mut [u8]) {
    let answer = writer::write(table, rows, message, draft::MOST_NESTING, output);
    match answer {
        Ok(length) => {
            console::write(rt, content::part(output, 0, length));
        }
        Err(refusal) => {
            complain(rt, draft::number(refusal), 0);
        }
    }
}

fn rewrite(rt: &HostRuntime, message: &[u8]) {
    let mut table = [0u32; 16384];
    let mut output = [0u8; 65536];
    let answer = reader::read(message, &mut table, draft::MOST_NESTING);
    match answer {
        read_answer::Answer::Accepted { rows, used: _ } => {
            write_form(rt, &table, rows, message, &mut output);
        }
        read_answer::Answer::Refused { refusal, place } => {
            complain(rt, draft::number(refusal), place);
        }
    }
}

// A message over 65,536 bytes is refused, so no more than one byte past that is kept of it.
fn main(rt: HostRuntime) {
    let mut room = [0u8; 65537];
    if let Ok(message) = console::read_input(&rt, b"usage: rewrite [FILE]\n", &mut room) {
        rewrite(&rt, message);
    }
}
