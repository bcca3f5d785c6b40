// A plan: two bytes for each string, its form and its position. Whether it is taken, and what its strings take. Strings are numbered in
// row order; of string j a lent word has the row.
#![tactic(auto)]

ghost use Rattle.std.specs.Prelude.{◌≡◌, ◌+◌, ◌*◌, ◌≤◌, ◌<◌, length};
ghost use Rattle.draft.specs.Table.{row_at, from};
ghost use Rattle.draft.specs.Strings.{costs};
ghost use Rattle.buckets.specs.Numbered.{numbered_text, Strings, Through};
ghost use Rattle.plans.specs.Plans.{sents_from, taken as takenBy};
ghost use Rattle.plans.specs.Forms.{byte_of, FormOf};
ghost use Rattle.plans.specs.Contract.{Named, Sends, Takes};

// How a plan sends a string. A form's byte is 0, 1 or 2.
#[derive(Clone, Copy, PartialEq, Eq)]
pub enum Form {
    Regular,
    Recorded,
    Recalled,
}

// A byte that is no form's.
#[derive(Clone, Copy, PartialEq, Eq)]
pub struct NoForm;

impl TryFrom<u8> for Form {
    type Error = NoForm;

    ghost try_from_gives = { FormOf };

    fn try_from(byte: u8) -> Result<Form, NoForm> {
        match byte {
            0 => Ok(Form::Regular),
            1 => Ok(Form::Recorded),
            2 => Ok(Form::Recalled),
            _ => Err(NoForm),
        }
    }
}

// Whether string j may be sent in this form at position p. The book has for each position one more than the number of the string that was
// recorded there last, or 0.
fn send(
    table: &[u32],
    room: usize,
    strings: &[u16],
    text: &[u8],
    book: &mut [usize; 256],
    form: Form,
    p: usize,
    j: usize,
) -> bool
    requires { (p < 256) × Through room (length table.now) j strings.now × Named j book.old }
    ensures { Sends (numbered_text (row_at room table.now) strings.now text.now) j (byte_of form) p book.old book.new result }
{
    match form {
        Form::Regular => p == 0,
        Form::Recorded => {
            book[p] = j + 1;
            true
        }
        Form::Recalled => {
            let k = book[p];
            k != 0 && buckets::equal_texts(table, room, strings, text, k - 1, j)
        }
    }
}

// Whether the plan is taken for the first `count` strings.
pub fn taken(
    table: &[u32],
    room: usize,
    strings: &[u16],
    count: usize,
    text: &[u8],
    plan: &[u8],
) -> bool
    requires { Strings room (length table.now) count strings.now }
    ensures { result ≡ takenBy plan.now (from (numbered_text (row_at room table.now) strings.now text.now) 0 count) }
{
    if plan.len() != count * 2 {
        return false;
    }
    let mut book = [0usize; 256];
    for j in 0..count {
        let Ok(form) = Form::try_from(plan[j * 2]) else {
            return false;
        };
        let p = plan[j * 2 + 1] as usize;
        if !send(table, room, strings, text, &mut book, form, p, j) {
            return false;
        }
    }
    true
}

// How many bytes string j takes, as the plan sends it.
pub fn string_length(
    table: &[u32],
    room: usize,
    strings: &[u16],
    text: &[u8],
    plan: &[u8],
    j: usize,
) -> usize
    requires { Through room (length table.now) j strings.now × (j * 2 + 1 < length plan.now) × (length text.now ≤ 65536) }
    ensures { Takes plan.now j (numbered_text (row_at room table.now) strings.now text.now j) result }
{
    let t = buckets::text_of(table, room, strings, text, j);
    match Form::try_from(plan[j * 2]) {
        Ok(Form::Regular) => 5 + t.len(),
        Ok(Form::Recorded) => 6 + t.len(),
        Ok(Form::Recalled) => 2,
        Err(NoForm) => 2,
    }
}

// How many bytes the first `count` strings take, as the plan sends them.
pub fn cost(
    table: &[u32],
    room: usize,
    strings: &[u16],
    count: usize,
    text: &[u8],
    plan: &[u8],
) -> usize
    requires { Strings room (length table.now) count strings.now × (count * 2 ≤ length plan.now) × (length text.now ≤ 65536) }
    ensures { result ≡ costs (sents_from plan.now 0 (from (numbered_text (row_at room table.now) strings.now text.now) 0 count)) }
{
    let mut sum: usize = 0;
    for j in 0..count {
        sum += string_length(table, room, strings, text, plan, j);
    }
    sum
}
