// What the functions that read an item share: their answer, numbers, and a row stored. What they promise is in specs/Contract.antt.
// `room` is the number of rows that the table has room for.
#![tactic(auto)]

ghost use Rattle.std.specs.Prelude.{◌≡◌, ◌+◌, ◌*◌, ◌≤◌, ◌<◌, length};
ghost use Rattle.draft.specs.Bytes.{unsigned_at};
ghost use Rattle.draft.specs.Table.{set_row};
ghost use Rattle.item.specs.Contract.{refused_at, reached, judged_at, Closed, Ends};

use draft::{Refusal, Refused, Row, Verdict};

// Up to where items were read: the next byte and the next row.
#[derive(Clone, Copy, Debug, PartialEq, Eq)]
pub struct Reached {
    pub at: usize,
    pub row: usize,
}

// What reading an item answers.
pub type Step<R = Refusal> = Result<Reached, Refused<R>>;

// A refusal at a place.
pub fn refuse<R>(refusal: R, at: usize) -> Step<R>
    ensures { result ≡ refused_at refusal at }
{
    Err(Refused { refusal, place: at })
}

// An item that was read up to a step, unless its rule refuses it at a place.
pub fn judged(verdict: Verdict, place: usize, step: Step) -> Step
    ensures { result ≡ judged_at verdict place step }
{
    match verdict {
        Err(refusal) => refuse(refusal, place),
        Ok(()) => step,
    }
}

// The four bytes at i, least significant first.
pub fn unsigned(s: &[u8], i: usize) -> usize
    requires { i + 4 ≤ length s.now }
    ensures { (result ≡ unsigned_at s.now i) × (result < 4294967296) }
{
    let a = usize::from(s[i]);
    let b = usize::from(s[i + 1]);
    let c = usize::from(s[i + 2]);
    let d = usize::from(s[i + 3]);
    a + 256 * (b + 256 * (c + 256 * d))
}

// An item of one row.
pub fn put_leaf(
    row: usize,
    to: usize,
    kind: u32,
    a: u32,
    b: u32,
    room: usize,
    table: &mut [u32],
) -> Reached
    requires { (row < room) × (room ≤ 4096) × (room * 4 ≤ length table.old) }
    ensures { (result ≡ reached to (row + 1)) × (table.new ≡ set_row room table.old row (record { kind = kind; a = a; b = b; end = row + 1 })) }
{
    let end = row + 1;
    table::put_row(
        table,
        room,
        row,
        Row {
            kind,
            a,
            b,
            end: end as u32,
        },
    );
    Reached { at: to, row: end }
}

// The row of an item behind the rows of what it holds, if those were read.
pub fn close<R>(
    step: Step<R>,
    kind: u32,
    b: u32,
    row: usize,
    room: usize,
    table: &mut [u32],
) -> Step<R>
    requires { Ends step room × (row < room) × (room ≤ 4096) × (room * 4 ≤ length table.old) }
    ensures { Closed step kind b row room table.old table.new result }
{
    let inside = step?;
    let end = inside.row;
    table::put_row(
        table,
        room,
        row,
        Row {
            kind,
            a: 0,
            b,
            end: end as u32,
        },
    );
    Ok(inside)
}
