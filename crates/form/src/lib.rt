// The written form of a writable table's rows, into a lent output: how each string is sent is found first, in arrays that lie in the frame
// of one function and are lent to all the others.
#![tactic(auto)]

ghost use Rattle.std.specs.Prelude.{◌≡◌, ◌≤◌, ◌<◌, length, replicate};
ghost use Rattle.draft.specs.Table.{row_at, from};
ghost use Rattle.draft.specs.Written.{written};
ghost use Rattle.extents.specs.Asked.{Ready};
ghost use Rattle.buckets.specs.Numbered.{numbered_text, Strings};
ghost use Rattle.message.specs.Filled.{Filled};
ghost use Rattle.form.specs.Contract.{Settled, Prepared};

// Finds the first string of each text and the texts' positions, or that the texts alone make the form too long. The heads of the chains
// are lent as zeros; their links lie where the positions go when all first strings are found.
fn settle(
    table: &[u32],
    room: usize,
    strings: &[u16],
    count: usize,
    text: &[u8],
    firsts: &mut [u16],
    heads: &mut [u16],
    spots: &mut [u16],
) -> bool
    requires { Strings room (length table.now) count strings.now × (length text.now ≤ 65536) × (count ≤ length firsts.old) × (count ≤ length spots.old) × (heads.old ≡ replicate (length heads.old) 0) × (0 < length heads.old) × (length heads.old ≤ 4096) }
    ensures { Settled (numbered_text (row_at room table.now) strings.now text.now) count firsts.new spots.new result }
{
    if !texts::scan(table, room, strings, count, text, firsts, heads, spots) {
        return false;
    }
    positions::place(count, &firsts[..], spots);
    true
}

// Finds how each string is sent, in lent arrays that have room for as many strings as there are rows; or that the texts alone make the form
// too long.
fn prepare(
    table: &[u32],
    room: usize,
    rows: usize,
    text: &[u8],
    strings: &mut [u16],
    firsts: &mut [u16],
    heads: &mut [u16],
    spots: &mut [u16],
) -> bool
    requires { Ready rows room (length table.now) × (length text.now ≤ 65536) × (rows ≤ length strings.old) × (rows ≤ length firsts.old) × (rows ≤ length spots.old) × (heads.old ≡ replicate (length heads.old) 0) × (0 < length heads.old) × (length heads.old ≤ 4096) }
    ensures { Prepared (row_at room table.now) rows text.now strings.new firsts.new spots.new result }
{
    let count = sending::collect(table, room, rows, strings);
    settle(table, room, &strings[..], count, text, firsts, heads, spots)
}

// The written form of rows whose strings were prepared, and what was found then.
fn fill_prepared(
    table: &[u32],
    room: usize,
    rows: usize,
    text: &[u8],
    strings: &[u16],
    firsts: &[u16],
    spots: &[u16],
    known: bool,
    output: &mut [u8],
) -> usize
    requires { Ready rows room (length table.now) × Prepared (row_at room table.now) rows text.now strings.now firsts.now spots.now known }
    ensures { Filled (written text.now (from (row_at room table.now) 0 rows)) output.old output.new result }
{
    if known {
        return message::fill_known(table, room, rows, text, strings, firsts, spots, output);
    }
    copying::clear(output);
    message::TOO_LONG
}

// The same with arrays for up to N rows, and H heads. Laying out the largest takes longer than writing a small message, so a small table gets
// small ones.
fn fill_within<const N: usize, const H: usize>(
    table: &[u32],
    room: usize,
    rows: usize,
    text: &[u8],
    output: &mut [u8],
) -> usize
    requires { Ready rows room (length table.now) × (length text.now ≤ 65536) × (rows ≤ N) × (N ≤ 4096) × (0 < H) × (H ≤ 4096) }
    ensures { Filled (written text.now (from (row_at room table.now) 0 rows)) output.old output.new result }
{
    let mut strings = [0u16; N];
    let mut firsts = [0u16; N];
    let mut heads = [0u16; H];
    let mut spots = [0u16; N];
    let known = prepare(
        table,
        room,
        rows,
        text,
        &mut strings,
        &mut firsts,
        &mut heads,
        &mut spots,
    );
    fill_prepared(
        table, room, rows, text, &strings, &firsts, &spots, known, output,
    )
}

// The written form of a writable table's rows and zeros behind it, where it has at most 65,536 bytes and there is room for it; else zeros.
// Tells how many bytes the form needs.
pub fn fill(table: &[u32], room: usize, rows: usize, text: &[u8], output: &mut [u8]) -> usize
    requires { Ready rows room (length table.now) × (length text.now ≤ 65536) }
    ensures { Filled (written text.now (from (row_at room table.now) 0 rows)) output.old output.new result }
{
    if rows <= 64 {
        return fill_within::<64, 32>(table, room, rows, text, output);
    }
    if rows <= 1024 {
        return fill_within::<1024, 512>(table, room, rows, text, output);
    }
    fill_within::<4096, 2048>(table, room, rows, text, output)
}
