// The message of rows of which it is known how each string is sent: how many bytes it has, its bytes into a lent output, and
// an output filled with it and with zeros behind it.
#![tactic(auto)]

ghost use Rattle.std.specs.Prelude.{◌≡◌, ◌++◌, ◌≤◌, length, take};
ghost use Rattle.draft.specs.Table.{row_at, from};
ghost use Rattle.draft.specs.Written.{written};
ghost use Rattle.extents.specs.Asked.{Ready};
ghost use Rattle.message.specs.Contract.{planned, Known, row_bytes, next_string, Asked, Long, Fitted};
ghost use Rattle.message.specs.Filled.{Most, Filled};

use draft::Row;

// The most bytes that a message may have.
pub const MOST_BYTES: usize = 65536;

// What is told of a form that has more.
pub const TOO_LONG: usize = 65537;

// The next string behind a row.
fn next_string(j: usize, row: Row) -> usize
    requires { j ≤ 4096 }
    ensures { result ≡ next_string j row }
{
    if row.kind == 11 { j + 1 } else { j }
}

// How many bytes a row's item has, without the items that it holds; string j is the next.
fn row_length(
    table: &[u32],
    room: usize,
    text: &[u8],
    strings: &[u16],
    firsts: &[u16],
    spots: &[u16],
    j: usize,
    row: Row,
) -> usize
    requires { Asked room (length table.now) text.now strings.now firsts.now spots.now j row }
    ensures { Long (row_bytes (row_at room table.now) text.now strings.now firsts.now spots.now j row) result }
{
    if row.kind == 11 {
        return sending::string_length(table, room, text, strings, firsts, spots, j);
    }
    row_length::item_length(text, row)
}

// How many bytes the message has.
fn measure(
    table: &[u32],
    room: usize,
    rows: usize,
    text: &[u8],
    strings: &[u16],
    firsts: &[u16],
    spots: &[u16],
) -> usize
    requires { Ready rows room (length table.now) × Known (row_at room table.now) rows text.now strings.now firsts.now spots.now }
    ensures { result ≡ length (written text.now (from (row_at room table.now) 0 rows)) }
{
    let mut sum: usize = 12;
    let mut j = 0;
    for r in 0..rows {
        let row = table::get_row(table, room, r);
        sum += row_length(table, room, text, strings, firsts, spots, j, row);
        j = next_string(j, row);
    }
    sum
}

// The items, each behind what is there, from the first 12 bytes on, if all has at most so many bytes: strings one by one, and the rows between
// them in runs. Stops at an item that goes over, and tells where it would end.
// Stays: a `while`: a run ends where `encoding::put_run` says, so the number of the next row is no count that `for` has.
fn put_items(
    table: &[u32],
    room: usize,
    rows: usize,
    text: &[u8],
    strings: &[u16],
    firsts: &[u16],
    spots: &[u16],
    most: usize,
    output: &mut [u8],
) -> usize
    requires { Ready rows room (length table.now) × Known (row_at room table.now) rows text.now strings.now firsts.now spots.now × Most (length output.old) most × (12 ≤ most) }
    ensures { Fitted (take 12 output.old ++ planned text.now (from (row_at room table.now) 0 rows)) most output.old output.new result }
{
    let mut at = 12;
    let mut j = 0;
    let mut sent = 0;
    while sent < rows {
        let row = table::get_row(table, room, sent);
        let left = most - at;
        if row.kind == 11 {
            let n = sending::put_string(
                &mut output[at..],
                left,
                table,
                room,
                text,
                strings,
                firsts,
                spots,
                j,
            );
            if left < n {
                return at + n;
            }
            at += n;
            j += 1;
            sent += 1;
        } else {
            let run = encoding::put_run(table, room, sent, rows, text, left, &mut output[at..]);
            if left < run.bytes {
                return at + run.bytes;
            }
            at += run.bytes;
            sent = run.end;
        }
    }
    at
}

// The message, if it has at most so many bytes: its first 12 bytes, and the items behind them.
fn put_message(
    table: &[u32],
    room: usize,
    rows: usize,
    text: &[u8],
    strings: &[u16],
    firsts: &[u16],
    spots: &[u16],
    most: usize,
    output: &mut [u8],
) -> usize
    requires { Ready rows room (length table.now) × Known (row_at room table.now) rows text.now strings.now firsts.now spots.now × Most (length output.old) most }
    ensures { Fitted (written text.now (from (row_at room table.now) 0 rows)) most output.old output.new result }
{
    if most < 12 {
        return 12;
    }
    output::put_bytes(output, b"binmode-rpc:");
    put_items(
        table, room, rows, text, strings, firsts, spots, most, output,
    )
}

// The written form of rows whose strings are known, where it is short enough and there is room for it, and zeros behind it; else zeros.
// It is measured only where it was not put.
pub fn fill_known(
    table: &[u32],
    room: usize,
    rows: usize,
    text: &[u8],
    strings: &[u16],
    firsts: &[u16],
    spots: &[u16],
    output: &mut [u8],
) -> usize
    requires { Ready rows room (length table.now) × Known (row_at room table.now) rows text.now strings.now firsts.now spots.now }
    ensures { Filled (written text.now (from (row_at room table.now) 0 rows)) output.old output.new result }
{
    let most = output.len().min(MOST_BYTES);
    let n = put_message(
        table, room, rows, text, strings, firsts, spots, most, output,
    );
    if n <= most {
        copying::clear(&mut output[n..]);
        return n;
    }
    copying::clear(output);
    measure(table, room, rows, text, strings, firsts, spots).min(TOO_LONG)
}
