// The rows of a dict's keys, put in byte order of their texts.
#![tactic(auto, using(crate::proofs::Arranging::gathering, crate::proofs::Arranging::counting, crate::proofs::Arranging::fronts))]

ghost use Rattle.std.specs.Prelude.{◌≡◌, ◌+◌, ◌*◌, ◌/◌, ◌≤◌, length};
ghost use Rattle.draft.specs.Table.{row_at};
ghost use Rattle.sorting.specs.Sorting.{key_text};
ghost use Rattle.key_order.specs.Arranged.{key_rows, Keys, over, Laid};

// The rows of as many keys as there is room for, the first of them known: behind a key stands its value.
fn gather(table: &[u32], room: usize, first: usize, rows: &mut [u32])
    requires { (room ≤ 4096) × (room * 4 ≤ length table.now) × Keys (row_at room table.now) room (length rows.old) first }
    ensures { rows.new ≡ key_rows (row_at room table.now) (length rows.old) first }
{
    let mut here = first;
    for row in rows {
        *row = here as u32;
        here = table::get_row(table, room, here + 1).end as usize;
    }
}

// Whether the texts of rows have more bytes together than so many.
fn is_over(table: &[u32], room: usize, text: &[u8], most: usize, rows: &[u32]) -> bool
    requires { (room ≤ 4096) × (room * 4 ≤ length table.now) }
    ensures { result ≡ over (key_text room (row_at room table.now) text.now) most rows.now }
{
    let mut left = most;
    for &row in rows {
        let key = sorting::key_text(table, room, text, row as usize);
        if left < key.len() {
            return true;
        }
        left -= key.len();
    }
    false
}

// The rows of a dict's n keys, in order, to the front of `rows`; half as many words behind them are used. Keys that have over `most` bytes are
// left as they stand: so long a dict is measured and not put, and to compare them would take long.
pub fn arrange(
    table: &[u32],
    room: usize,
    text: &[u8],
    n: usize,
    first: usize,
    most: usize,
    rows: &mut [u32],
)
    requires { (room ≤ 4096) × (room * 4 ≤ length table.now) × (n + n / 2 ≤ length rows.old) × Keys (row_at room table.now) room n first }
    ensures { Laid (key_text room (row_at room table.now) text.now) most (key_rows (row_at room table.now) n first) n rows.new }
{
    gather(table, room, first, &mut rows[..n]);
    if n < 2 || is_over(table, room, text, most, &rows[..n]) {
        return;
    }
    merging::sort_front(table, room, text, rows, n);
}
