// The message of rows whose strings a plan sends: how many bytes it has, its bytes into a lent output, and an output filled with it and
// with zeros behind it. Strings are numbered in row order; of string j a lent word has the row, and the plan two bytes.
#![tactic(auto)]

ghost use Rattle.std.specs.Prelude.{◌≡◌, ◌+◌, ◌*◌, ◌≤◌, ◌<◌, length};
ghost use Rattle.draft.specs.Table.{row_at, from};
ghost use Rattle.draft.specs.Written.{string_bytes};
ghost use Rattle.extents.specs.Asked.{Ready};
ghost use Rattle.buckets.specs.Numbered.{numbered_text, Through};
ghost use Rattle.plans.specs.Plans.{sent_at, planned};
ghost use Rattle.output.specs.Contract.{Put};
ghost use Rattle.message.specs.Filled.{Filled};
ghost use Rattle.plan_message.specs.Contract.{planned_items, Known};

use plans::{Form, NoForm};

// How many bytes the message has.
pub fn measure(
    table: &[u32],
    room: usize,
    rows: usize,
    text: &[u8],
    strings: &[u16],
    plan: &[u8],
) -> usize
    requires { Ready rows room (length table.now) × Known (row_at room table.now) rows text.now strings.now plan.now }
    ensures { result ≡ length (planned text.now (from (row_at room table.now) 0 rows) plan.now) }
{
    let mut sum: usize = 12;
    let mut j = 0;
    for r in 0..rows {
        let row = table::get_row(table, room, r);
        if row.kind == 11 {
            sum += plans::string_length(table, room, strings, text, plan, j);
            j += 1;
        } else {
            sum += row_length::item_length(text, row);
        }
    }
    sum
}

// String j, to the front of the output.
#[tactic(auto, using(sending::proofs::Sending::text_few))]
fn put_string(
    out: &mut [u8],
    table: &[u32],
    room: usize,
    text: &[u8],
    strings: &[u16],
    plan: &[u8],
    j: usize,
) -> usize
    requires { Through room (length table.now) j strings.now × (j * 2 + 1 < length plan.now) × (length text.now ≤ 65536) × (length (string_bytes (sent_at plan.now j (numbered_text (row_at room table.now) strings.now text.now j))) ≤ length out.old) }
    ensures { Put (string_bytes (sent_at plan.now j (numbered_text (row_at room table.now) strings.now text.now j))) out.old out.new result }
{
    let t = buckets::text_of(table, room, strings, text, j);
    let p = plan[j * 2 + 1];
    let most = out.len();
    match Form::try_from(plan[j * 2]) {
        Ok(Form::Regular) => output::try_long(out, most, b'U', t),
        Ok(Form::Recorded) => output::try_recorded(out, most, p, t),
        Ok(Form::Recalled) => output::try_two(out, most, b'<', p),
        Err(NoForm) => output::try_two(out, most, b'<', p),
    }
}

// The items, which have at most so many bytes: each goes into the part of the output after the items already there, strings one by one, and the
// rows between them in runs.
// Stays: a `while`: a run ends where `encoding::put_run` says, so the number of the next row is no count that `for` has.
fn put_items(
    table: &[u32],
    room: usize,
    rows: usize,
    text: &[u8],
    strings: &[u16],
    plan: &[u8],
    most: usize,
    output: &mut [u8],
) -> usize
    requires { Ready rows room (length table.now) × Known (row_at room table.now) rows text.now strings.now plan.now × (length (planned_items text.now (from (row_at room table.now) 0 rows) plan.now) ≤ most) × (most ≤ length output.old) × (most ≤ 65536) }
    ensures { Put (planned_items text.now (from (row_at room table.now) 0 rows) plan.now) output.old output.new result }
{
    let mut at = 0;
    let mut j = 0;
    let mut sent = 0;
    while sent < rows {
        let row = table::get_row(table, room, sent);
        if row.kind == 11 {
            at += put_string(&mut output[at..], table, room, text, strings, plan, j);
            j += 1;
            sent += 1;
        } else {
            let left = most - at;
            let run = encoding::put_run(table, room, sent, rows, text, left, &mut output[at..]);
            at += run.bytes;
            sent = run.end;
        }
    }
    at
}

// The message, which has n bytes: the first 12 bytes, and the items behind them.
fn put_message(
    table: &[u32],
    room: usize,
    rows: usize,
    text: &[u8],
    strings: &[u16],
    plan: &[u8],
    n: usize,
    output: &mut [u8],
) -> usize
    requires { Ready rows room (length table.now) × Known (row_at room table.now) rows text.now strings.now plan.now × (n ≡ length (planned text.now (from (row_at room table.now) 0 rows) plan.now)) × (n ≤ length output.old) × (n ≤ 65536) }
    ensures { Put (planned text.now (from (row_at room table.now) 0 rows) plan.now) output.old output.new result }
{
    output::put_bytes(output, b"binmode-rpc:");
    12 + put_items(
        table,
        room,
        rows,
        text,
        strings,
        plan,
        n - 12,
        &mut output[12..],
    )
}

// The plan's message, which has n bytes, where it is short enough and there is room for it, and zeros behind it; else zeros.
pub fn fill(
    table: &[u32],
    room: usize,
    rows: usize,
    text: &[u8],
    strings: &[u16],
    plan: &[u8],
    n: usize,
    output: &mut [u8],
) -> usize
    requires { Ready rows room (length table.now) × Known (row_at room table.now) rows text.now strings.now plan.now × (n ≡ length (planned text.now (from (row_at room table.now) 0 rows) plan.now)) }
    ensures { Filled (planned text.now (from (row_at room table.now) 0 rows) plan.now) output.old output.new result }
{
    if message::MOST_BYTES < n {
        copying::clear(output);
        return message::TOO_LONG;
    }
    if output.len() < n {
        copying::clear(output);
        return n;
    }
    let at = put_message(table, room, rows, text, strings, plan, n, output);
    copying::clear(&mut output[at..]);
    n
}
