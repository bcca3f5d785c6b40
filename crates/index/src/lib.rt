// An index of a Struct's members, on plain slices and numbers: the key rows in byte order of their texts, and the entry of each. The function that has
// the list itself is in `binmode`; each turn of its loop calls one function of these, which decides everything.
#![tactic(auto, using(crate::proofs::Arranging::gathering, crate::proofs::Storing::all_narrowed, crate::proofs::Storing::entering))]

ghost use Rattle.std.specs.Prelude.{◌≡◌, [], ◌*◌, ◌≤◌, length, get_or};
ghost use Rattle.draft.specs.Table.{row_at, from};
ghost use Rattle.member.specs.Members.{members_from};
ghost use Rattle.sorting.specs.Sorting.{key_text, sorted};
ghost use Rattle.index.specs.Filling.{key_rows, padded, number_of, told, Gathered, Arranged, Listed, narrowed, Ordered, entry_of};

use member::Member;

// The most members that a Struct of a writable table has.
const MOST: usize = 2047;

// How many key rows are kept: more than MOST, so that no copy of them lies 4,096 bytes behind them, where copying takes 20 times as long.
const KEPT: usize = 2112;

// Why there is no index: the table is not writable; the row is no Struct; or the list is shorter than the member count.
#[derive(Clone, Copy, PartialEq, Eq, Debug)]
pub enum Refusal {
    NotWritable,
    NoStruct,
    ShortList,
}

// The papers' number of a refusal.
impl From<Refusal> for u8 {
    ghost from_gives = { λ r n. n ≡ number_of r };

    fn from(refusal: Refusal) -> u8 {
        match refusal {
            Refusal::NotWritable => 11,
            Refusal::NoStruct => 18,
            Refusal::ShortList => 21,
        }
    }
}

// The key rows of a Struct's members in byte order of their texts, zeros behind them; and 0, or why there are none. It is copied for each
// entry, so a key row has two bytes here.
// Stays: the answer is a number, since E7's law (Filling.Ordered) and C are told it beside rows that stand on a refusal too.
#[derive(Clone, Copy)]
pub struct Order {
    pub rows: [u16; 2112],
    pub answer: u8,
}

// The key rows of n members, of which the first is row `first`, as they stand; and how many there are.
fn gather(
    table: &[u32],
    room: usize,
    rows: usize,
    n: usize,
    first: usize,
    order: &mut [u32],
) -> usize
    requires { (rows ≤ room) × (room ≤ 4096) × (room * 4 ≤ length table.now) × (length (members_from (row_at room table.now) rows n first) ≤ 2047) × (order.old ≡ padded []) }
    ensures { Gathered (key_rows (members_from (row_at room table.now) rows n first)) result order.new }
{
    let mut here = first;
    for c in 0..n {
        let Some(member) = member::member_among(rows, here) else {
            return c;
        };
        order[c] = member.key;
        here = member::end_of(table, room, member.value as usize);
    }
    n
}

// The same, put in order. The words behind them are used, and zeros again then.
fn sort(
    table: &[u32],
    room: usize,
    rows: usize,
    text: &[u8],
    n: usize,
    first: usize,
    order: &mut [u32],
)
    requires { (rows ≤ room) × (room ≤ 4096) × (room * 4 ≤ length table.now) × (length (members_from (row_at room table.now) rows n first) ≤ 2047) × (order.old ≡ padded []) }
    ensures { order.new ≡ padded (sorted (key_text room (row_at room table.now) text.now) (key_rows (members_from (row_at room table.now) rows n first))) }
{
    let c = gather(table, room, rows, n, first, order);
    merging::sort_front(table, room, text, order, c);
    table::clear(&mut order[c..]);
}

// The key rows of the Struct of row r in order, for a list of n entries, in a table that was judged before: 0, 18 or 21.
fn arrange(
    table: &[u32],
    room: usize,
    rows: usize,
    text: &[u8],
    r: usize,
    n: usize,
    order: &mut [u32],
) -> Result<(), Refusal>
    requires { (rows ≤ room) × (room ≤ 4096) × (room * 4 ≤ length table.now) × (order.old ≡ padded []) }
    ensures { Arranged room (row_at room table.now) rows text.now r n (told result) order.new }
{
    if !member::is_struct(table, room, rows, r) {
        return Err(Refusal::NoStruct);
    }
    let c = member::count(table, room, rows, r);
    if n < c {
        return Err(Refusal::ShortList);
    }
    if MOST < c {
        return Err(Refusal::ShortList);
    }
    let row = table::get_row(table, room, r);
    sort(table, room, rows, text, row.b as usize, r + 1, order);
    Ok(())
}

// The same, with the table judged.
fn judged_order(
    table: &[u32],
    rows: usize,
    text: &[u8],
    r: usize,
    n: usize,
    order: &mut [u32],
) -> Result<(), Refusal>
    requires { order.old ≡ padded [] }
    ensures { Listed table.now rows text.now r n (told result) order.new }
{
    if !shape::writable(table, rows, text) {
        return Err(Refusal::NotWritable);
    }
    let room = table::room_of(table.len());
    arrange(table, room, rows, text, r, n, order)
}

// A key row in two bytes; a number that is none is 0.
#[tactic(auto, using(crate::proofs::Storing::narrowing))]
fn narrow(k: u32) -> u16
    ensures { result ≡ narrowed k }
{
    if 4096 < k { 0 } else { k as u16 }
}

// As many words as there is room for, each in two bytes.
fn narrow_all(words: &[u32], rows: &mut [u16])
    requires { length rows.old ≤ length words.now }
    ensures { rows.new ≡ from (λ i. narrowed (get_or words.now i 0)) 0 (length rows.old) }
{
    for i in 0..rows.len() {
        rows[i] = narrow(words[i]);
    }
}

// 0, or the refusal's number.
fn told(answer: Result<(), Refusal>) -> u8
    ensures { result ≡ told answer }
{
    match answer {
        Ok(()) => 0,
        Err(refusal) => refusal.into(),
    }
}

// The key rows of the Struct of row r in order, for a list of n entries.
pub fn order_of<'a>(table: &'a [u32], rows: usize, text: &'a [u8], r: usize, n: usize) -> Order
    ensures { Ordered table.now rows text.now r n result.answer result.rows }
{
    let mut words = [0; 3071];
    let listed = judged_order(table, rows, text, r, n, &mut words);
    let mut kept = [0; 2112];
    narrow_all(&words, &mut kept);
    Order {
        rows: kept,
        answer: told(listed),
    }
}

// The entry of key row k; one that is none has an unused entry.
fn entry_of(k: u16) -> Member
    ensures { result ≡ entry_of k }
{
    if k == 0 || 4096 < k {
        return Member { key: 0, value: 0 };
    }
    let key = k as u32;
    Member {
        key,
        value: key + 1,
    }
}

// Entry i of the index; behind the last stand unused ones.
pub fn entry_in(order: Order, i: usize) -> Member
    ensures { result ≡ entry_of (get_or order.rows i 0) }
{
    if KEPT <= i {
        return Member { key: 0, value: 0 };
    }
    entry_of(order.rows[i])
}
