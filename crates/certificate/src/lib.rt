// Whether a plan and prices prove that no message with a table's meaning is shorter than the plan's. Any table, plan and prices may be given.
#![tactic(auto)]

ghost use Rattle.std.specs.Prelude.{◌≡◌, ◌≤◌, length};
ghost use Rattle.draft.specs.Table.{row_at, from};
ghost use Rattle.extents.specs.Asked.{Ready};
ghost use Rattle.buckets.specs.Numbered.{numbered_text, Strings};
ghost use Rattle.certificate.specs.Certificate.{certified_texts, certified};
ghost use Rattle.certificate.specs.Contract.{Heads, Reaches, Judged};

// The most bytes that a message may have.
pub const MOST_BYTES: usize = 65536;

// The positions of the codebook.
const POSITIONS: usize = 256;

// Whether the prices prove that the first `count` strings cost no less than `cost` with 256 positions; no if the different texts alone take
// over 65,536 bytes. It uses the lent arrays: chains of
// texts, whose heads are zeros, and a word for each string.
fn bound_reaches(
    table: &[u32],
    room: usize,
    strings: &[u16],
    count: usize,
    text: &[u8],
    prices: &[u32],
    cost: usize,
    firsts: &mut [u16],
    heads: &mut [u16],
    nexts: &mut [u16],
    marks: &mut [usize],
) -> bool
    requires { Strings room (length table.now) count strings.now × (length text.now ≤ 65536) × (length prices.now ≡ count) × (cost ≤ 65536) × (count ≤ length firsts.old) × Heads heads.old × (count ≤ length nexts.old) × (count ≤ length marks.old) }
    ensures { Reaches (numbered_text (row_at room table.now) strings.now text.now) count prices.now cost result }
{
    if texts::scan(table, room, strings, count, text, firsts, heads, nexts) {
        let bound = prices::price(
            table,
            room,
            strings,
            count,
            text,
            &firsts[..],
            prices,
            marks,
        );
        return cost + POSITIONS * bound.prices <= bound.least;
    }
    false
}

// Of the first `count` strings.
fn judge_strings(
    table: &[u32],
    room: usize,
    strings: &[u16],
    count: usize,
    text: &[u8],
    plan: &[u8],
    prices: &[u32],
    firsts: &mut [u16],
    heads: &mut [u16],
    nexts: &mut [u16],
    marks: &mut [usize],
) -> bool
    requires { Strings room (length table.now) count strings.now × (length text.now ≤ 65536) × (count ≤ length firsts.old) × Heads heads.old × (count ≤ length nexts.old) × (count ≤ length marks.old) }
    ensures { result ≡ certified_texts plan.now prices.now (from (numbered_text (row_at room table.now) strings.now text.now) 0 count) }
{
    if plans::taken(table, room, strings, count, text, plan) {
        if prices.len() != count {
            return false;
        }
        let cost = plans::cost(table, room, strings, count, text, plan);
        if MOST_BYTES < cost {
            return false;
        }
        return bound_reaches(
            table, room, strings, count, text, prices, cost, firsts, heads, nexts, marks,
        );
    }
    false
}

// Of the rows of a writable table, with lent arrays.
fn judge_rows(
    table: &[u32],
    room: usize,
    rows: usize,
    text: &[u8],
    plan: &[u8],
    prices: &[u32],
    strings: &mut [u16],
    firsts: &mut [u16],
    heads: &mut [u16],
    nexts: &mut [u16],
    marks: &mut [usize],
) -> bool
    requires { Ready rows room (length table.now) × (length text.now ≤ 65536) × (rows ≤ length strings.old) × (rows ≤ length firsts.old) × Heads heads.old × (rows ≤ length nexts.old) × (rows ≤ length marks.old) }
    ensures { Judged text.now (from (row_at room table.now) 0 rows) plan.now prices.now result }
{
    let count = sending::collect(table, room, rows, strings);
    judge_strings(
        table,
        room,
        &strings[..],
        count,
        text,
        plan,
        prices,
        firsts,
        heads,
        nexts,
        marks,
    )
}

// The same, with arrays for as many rows as a table may have.
fn judge(table: &[u32], room: usize, rows: usize, text: &[u8], plan: &[u8], prices: &[u32]) -> bool
    requires { Ready rows room (length table.now) × (length text.now ≤ 65536) }
    ensures { Judged text.now (from (row_at room table.now) 0 rows) plan.now prices.now result }
{
    let mut words = [0u16; 4096];
    let mut firsts = [0u16; 4096];
    let mut heads = [0u16; 2048];
    let mut nexts = [0u16; 4096];
    let mut marks = [0usize; 4096];
    judge_rows(
        table,
        room,
        rows,
        text,
        plan,
        prices,
        &mut words,
        &mut firsts,
        &mut heads,
        &mut nexts,
        &mut marks,
    )
}

// Whether the plan's message is proved to be the shortest with the meaning of a table with a stated number of rows, whose texts lie in the
// text bytes. No is no statement.
pub fn proves(table: &[u32], rows: usize, text: &[u8], plan: &[u8], prices: &[u32]) -> bool
    ensures { result ≡ certified table.now rows text.now plan.now prices.now }
{
    if shape::writable(table, rows, text) {
        let room = table::room_of(table.len());
        return judge(table, room, rows, text, plan, prices);
    }
    false
}
