// Lists a job file: `joblist FILE` has a line for each card, then how many there are, and what is wrong with the job if something is;
// `joblist FILE NUMBER` has the rows of one card.
#![tactic(auto)]

use job::JobFault;
use read_answer::Answer;
use records::{JobRefusal, Missing};

// The most bytes of a job file that the program takes.
const MOST: usize = 4194304;

// A line has 160 bytes at most (`listings/proofs/Room.antt`), so behind one that begins here there is room for the last two.
const FULL: usize = 65056;

// Lines that wait in a buffer of 65,536 bytes and go out together, and where they end.
#[derive(Drop)]
struct Waiting {
    space: [u8; 65536],
    end: usize,
}

impl Waiting {
    // Hands on the lines that wait, and says whether standard output took them.
    fn write(&self, rt: &HostRuntime) -> bool {
        console::write(rt, content::part(&self.space, 0, self.end))
    }

    // Puts a card's line behind those that wait, which go out first if they are many. False if standard output did not take those.
    fn put_card(
        &mut self,
        rt: &HostRuntime,
        number: usize,
        start: usize,
        size: usize,
        answer: Answer,
    ) -> bool {
        if FULL < self.end {
            if !self.write(rt) {
                return false;
            }
            self.end = 0;
        }
        self.end = lines::put_card(&mut self.space, self.end, number, start, size, answer);
        true
    }

    // Puts `cards N`, and `refused N at P` if the job is not sound, and hands on what waits.
    fn write_end(&mut self, rt: &HostRuntime, cards: usize, fault: Missing) {
        self.end = lines::put_count(&mut self.space, self.end, cards);
        if fault.refusal != JobRefusal::NoCard {
            let number = fault.refusal.into();
            self.end = lines::put_refusal(&mut self.space, self.end, number, fault.place);
        }
        self.write(rt);
    }
}

// From card to card, in one pass over the file, as long as standard output takes the lines.
// Stays: where the next card is looked for depends on what was found, so no `for` counts it.
fn list_job(rt: &HostRuntime, file: &[u8], table: &mut [u32]) {
    let mut waiting = Waiting {
        space: [0; 65536],
        end: 0,
    };
    let mut number = 0;
    let mut from = 0;
    while from <= file.len() {
        match card_search::find_next(file, number, from) {
            Err(missing) => {
                waiting.write_end(rt, number, missing);
                return;
            }
            Ok(body) => {
                let card = content::part(file, body.start, body.length);
                let answer = reader::read(card, table, draft::MOST_NESTING);
                if !waiting.put_card(rt, number, body.start, body.length, answer) {
                    return;
                }
                number += 1;
                from = body.start + body.length;
            }
        }
    }
}

// `refused N at P`
fn write_refusal(rt: &HostRuntime, number: u8, place: usize) {
    let mut space = [0u8; 160];
    let n = lines::put_refusal(&mut space, 0, number, place);
    console::write(rt, content::part(&space, 0, n));
}

// `rows R used U body B`, and a line for each row.
fn write_rows(rt: &HostRuntime, rows: usize, used: usize, body: usize, table: &[u32]) {
    let mut space = [0u8; 430158];
    let n = listings::put_card_rows(&mut space, rows, used, body, table);
    console::write(rt, content::part(&space, 0, n));
}

// A card's rows; or `refused N at P`.
fn list_one(rt: &HostRuntime, file: &[u8], number: usize, table: &mut [u32]) {
    match job::read_card(file, number, table) {
        Ok(card) => write_rows(rt, card.rows, card.used, card.body, table),
        Err(JobFault::Refused { refusal, place }) => write_refusal(rt, refusal.into(), place),
        Err(JobFault::Missing { refusal, place }) => write_refusal(rt, refusal.into(), place),
    }
}

// Without a second word every card is listed, with one that card.
fn list(rt: &HostRuntime, file: &[u8], table: &mut [u32]) {
    if console::word_count(rt) < 3 {
        list_job(rt, file, table);
        return;
    }
    let mut space = [0u8; 4096];
    let word = console::word(rt, 2, &mut space);
    match word.ok().and_then(spelling::parse) {
        Some(number) => list_one(rt, file, number, table),
        None => console::complain(rt, b"joblist: NUMBER is not a number, or too large\n"),
    }
}

// Reads the file that the first word names, and lists it.
fn run(rt: &HostRuntime, buffer: &mut [u8], table: &mut [u32]) {
    let usage = b"usage: joblist FILE [NUMBER]\n";
    if console::has_helped(rt, usage) {
        return;
    }
    if !matches!(console::word_count(rt), 2 | 3) {
        console::complain(rt, usage);
        return;
    }
    let Ok(file) = console::read_file(rt, 1, buffer) else {
        return;
    };
    if MOST < file.len() {
        console::complain(rt, b"joblist: the file is over 4,194,304 bytes\n");
        return;
    }
    list(rt, file, table);
}

// The table has room for 4,096 rows.
fn main(rt: HostRuntime) {
    let mut buffer = [0u8; 4194305];
    let mut table = [0u32; 16384];
    run(&rt, &mut buffer, &mut table);
}
