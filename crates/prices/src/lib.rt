// What prices prove that strings cost. Strings are numbered in row order; of string j a lent word has the row, one says which string is the
// first with its text, and one is the price of the gap after it.
#![tactic(auto)]

ghost use Rattle.std.specs.Prelude.{◌≡◌, ◌+◌, ◌≤◌, ◌<◌, length};
ghost use Rattle.draft.specs.Table.{row_at};
ghost use Rattle.buckets.specs.Numbered.{numbered_text, Strings, Through, Firsts};
ghost use Rattle.prices.specs.Prices.{share, left};
ghost use Rattle.prices.specs.Contract.{Worth, Priced};

// What prices prove that strings cost with so many positions: `least` less that many times `prices`, their sum.
#[derive(Clone, Copy, PartialEq, Eq)]
pub struct Bound {
    pub least: usize,
    pub prices: usize,
}

// How many bytes the text of string j has.
fn size_of(table: &[u32], room: usize, strings: &[u16], text: &[u8], j: usize) -> usize
    requires { Through room (length table.now) j strings.now × (length text.now ≤ 65536) }
    ensures { (result ≡ length (numbered_text (row_at room table.now) strings.now text.now j)) × (result ≤ 65536) }
{
    buckets::text_of(table, room, strings, text, j).len()
}

// What it is worth to have the text of string j, whose first string is f, where `paid` is paid so far.
fn worth_of(marks: &[usize], f: usize, j: usize, paid: usize, size: usize) -> usize
    requires { (f ≤ j) × (j < length marks.now) × (size ≤ 65536) }
    ensures { Worth marks.now f j paid size result }
{
    if f == j {
        return 4 + size;
    }
    paid.saturating_sub(marks[f])
}

fn share_of(size: usize, worth: usize) -> usize
    requires { size ≤ 65536 }
    ensures { (result ≡ share size worth) × (result ≤ 5 + size) }
{
    if 3 + size < worth {
        5 + size
    } else {
        2 + worth
    }
}

fn left_of(size: usize, worth: usize) -> usize
    requires { size ≤ 65536 }
    ensures { (result ≡ left size worth) × (result ≤ 1) }
{
    if 3 + size < worth { 1 } else { 0 }
}

// What as many prices as there are strings prove that the strings cost. It uses the marks.
pub fn price(
    table: &[u32],
    room: usize,
    strings: &[u16],
    count: usize,
    text: &[u8],
    firsts: &[u16],
    prices: &[u32],
    marks: &mut [usize],
) -> Bound
    requires { Strings room (length table.now) count strings.now × (length text.now ≤ 65536) × (count ≤ length firsts.now) × (length prices.now ≡ count) × (count ≤ length marks.old) × Firsts (numbered_text (row_at room table.now) strings.now text.now) count firsts.now }
    ensures { Priced (numbered_text (row_at room table.now) strings.now text.now) prices.now count result.least result.prices }
{
    let mut least: usize = 0;
    let mut paid: usize = 1;
    for j in 0..count {
        let f = firsts[j] as usize;
        let size = size_of(table, room, strings, text, j);
        let w = worth_of(marks, f, j, paid, size);
        least += share_of(size, w);
        marks[f] = paid - left_of(size, w);
        paid += prices[j] as usize;
    }
    Bound {
        least,
        prices: paid - 1,
    }
}
