// The items of rows that are no strings, one behind the other, put to the front of a lent output as far as they have at most so many bytes.
#![tactic(auto)]

ghost use Rattle.std.specs.Prelude.{◌≡◌, ◌≤◌, ◌<◌, length};
ghost use Rattle.draft.specs.Table.{row_at};
ghost use Rattle.extents.specs.Asked.{Ready};
ghost use Rattle.encoding.specs.Contract.{Ran};

// A run of rows that are no strings: the row behind it, and how many bytes its items have.
#[derive(Clone, Copy, PartialEq, Eq)]
pub struct Run {
    pub end: usize,
    pub bytes: usize,
}

// The items of the rows from `first` on, up to the next string's row, one behind the other to the front of the output, as far as they have
// at most so many bytes: the run ends behind an item that goes over. It has the only call of `row_item::put_item`, so that it is compiled
// into this loop.
pub fn put_run(
    table: &[u32],
    room: usize,
    first: usize,
    rows: usize,
    text: &[u8],
    most: usize,
    out: &mut [u8],
) -> Run
    requires { Ready rows room (length table.now) × (first < rows) × ((row_at room table.now first).kind ≡ 11 → ⊥) × (most ≤ length out.old) × (most ≤ 65536) × (length text.now ≤ 65536) }
    ensures { Ran (row_at room table.now) rows text.now first most out.old out.new result }
{
    let mut at = 0;
    for r in first..rows {
        let row = table::get_row(table, room, r);
        if row.kind == 11 {
            return Run { end: r, bytes: at };
        }
        let left = most - at;
        let n = row_item::put_item(&mut out[at..], left, text, row);
        if left < n {
            return Run {
                end: r + 1,
                bytes: at + n,
            };
        }
        at += n;
    }
    Run {
        end: rows,
        bytes: at,
    }
}
