// The writer with a plan: a table of rows and the bytes that its texts lie in, into a lent output, as the shorter of the plan's message and
// document 01's form. Here are the refusals and their order, and which of the two is written.
#![tactic(auto)]

ghost use Rattle.std.specs.Prelude.{◌≡◌, true, ◌≤◌, length};
ghost use Rattle.draft.specs.Limits.{allowed};
ghost use Rattle.draft.specs.Table.{row_at, from};
ghost use Rattle.extents.specs.Asked.{Ready};
ghost use Rattle.message.specs.Filled.{Filled};
ghost use Rattle.plan_message.specs.Contract.{Known};
ghost use Rattle.plan_writer.specs.declared.PlanRefusal.TheVariants.{Refused};
ghost use Rattle.plan_writer.specs.Contract.{RefusedWith, DidBy};
ghost use Rattle.plan_writer.specs.Answers.{chosen, Did};

use draft::Refusal;

// The most bytes that a message may have.
pub const MOST_BYTES: usize = write_answer::MOST_BYTES;

// Why nothing is written: as without a plan, or because the plan isn't taken.
#[derive(Clone, Copy)]
pub enum PlanRefusal {
    Refused(Refusal),
    NotTaken,
}

impl From<Refusal> for PlanRefusal {
    ghost from_gives = { λ refusal e. e ≡ Refused refusal };

    fn from(refusal: Refusal) -> PlanRefusal {
        PlanRefusal::Refused(refusal)
    }
}

// How long the message is that is written, or why none is.
pub type Answer = Result<usize, PlanRefusal>;

// A refusal leaves zeros.
fn refuse(output: &mut [u8], refusal: PlanRefusal) -> Answer
    ensures { RefusedWith refusal output.old output.new result }
{
    copying::clear(output);
    Err(refusal)
}

// The shorter of the two messages and zeros behind it, where it has at most 65,536 bytes and there is room for it; else zeros. Tells how
// many bytes it needs.
fn fill_shorter(
    table: &[u32],
    room: usize,
    rows: usize,
    text: &[u8],
    strings: &[u16],
    plan: &[u8],
    output: &mut [u8],
) -> usize
    requires { Ready rows room (length table.now) × (length text.now ≤ 65536) × Known (row_at room table.now) rows text.now strings.now plan.now }
    ensures { Filled (chosen text.now (from (row_at room table.now) 0 rows) plan.now) output.old output.new result }
{
    let m = plan_message::measure(table, room, rows, text, strings, plan);
    let n = form::fill(table, room, rows, text, output);
    if n <= m {
        return n;
    }
    plan_message::fill(table, room, rows, text, strings, plan, m, output)
}

// The rows of a writable table, written by a plan if it is taken. The words are used for their strings.
fn write_rows(
    table: &[u32],
    room: usize,
    rows: usize,
    text: &[u8],
    plan: &[u8],
    strings: &mut [u16],
    output: &mut [u8],
) -> Answer
    requires { Ready rows room (length table.now) × (length text.now ≤ 65536) × (rows ≤ length strings.old) }
    ensures { DidBy text.now (from (row_at room table.now) 0 rows) plan.now output.old output.new result }
{
    let count = sending::collect(table, room, rows, strings);
    if plans::taken(table, room, &strings[..], count, text, plan) {
        let size = output.len();
        let n = fill_shorter(table, room, rows, text, &strings[..], plan, output);
        return Ok(write_answer::answer_for(n, size)?);
    }
    refuse(output, PlanRefusal::NotTaken)
}

// The same, with words for the strings of as many rows as a table may have.
fn write_judged(
    table: &[u32],
    room: usize,
    rows: usize,
    text: &[u8],
    plan: &[u8],
    output: &mut [u8],
) -> Answer
    requires { Ready rows room (length table.now) × (length text.now ≤ 65536) }
    ensures { DidBy text.now (from (row_at room table.now) 0 rows) plan.now output.old output.new result }
{
    let mut words = [0u16; 4096];
    let strings: &mut [u16] = &mut words;
    write_rows(table, room, rows, text, plan, strings, output)
}

// What `write` does by a limit that may be stated.
fn write_within(
    table: &[u32],
    rows: usize,
    text: &[u8],
    plan: &[u8],
    limit: usize,
    output: &mut [u8],
) -> Answer
    requires { allowed limit ≡ true }
    ensures { Did limit table.now rows text.now plan.now output.old output.new result }
{
    if MOST_BYTES < text.len() {
        return refuse(output, PlanRefusal::Refused(Refusal::TooLong));
    }
    if shape::writable_to(table, rows, text, limit) {
        let room = table::room_of(table.len());
        return write_judged(table, room, rows, text, plan, output);
    }
    refuse(output, PlanRefusal::Refused(Refusal::NotWritable))
}

// Writes a table with a stated number of rows, whose texts lie in the text bytes, by a plan, nested to at most the limit that is stated. Every byte
// of the output is settled: the message, and zeros behind it; on a refusal, zeros.
pub fn write(
    table: &[u32],
    rows: usize,
    text: &[u8],
    plan: &[u8],
    limit: usize,
    output: &mut [u8],
) -> Answer
    ensures { Did limit table.now rows text.now plan.now output.old output.new result }
{
    if draft::allowed(limit) {
        return write_within(table, rows, text, plan, limit, output);
    }
    refuse(output, PlanRefusal::Refused(Refusal::NoLimit))
}
