// The row of a Struct's or a dict's key, as the writer walks it: a String, noted with those before it there.
// Assumes that the notes have an entry for each of the stated rows.
#![tactic(auto)]

ghost use Rattle.std.specs.Prelude.{◌≡◌, true, ◌≤◌, ◌<◌};
ghost use Rattle.key_rows.specs.Contract.{Prepared, KeyDone, KeyIf};

// The key of row r, for the Struct or the dict whose first key has the row `owner`. One that came before there does not fit. It is inlined
// where rows are walked in a loop: a call would lay out all that it is given.
#[inline(always)]
fn walk_key(
    table: &[u32],
    room: usize,
    rows: usize,
    text: &[u8],
    good: usize,
    r: usize,
    notes: &mut [u16],
    owner: usize,
) -> Option<usize>
    requires { (0 < owner) × (owner ≤ r) × Prepared text.now room rows table.now good r notes.old }
    ensures { KeyDone text.now room rows table.now owner r notes.old notes.new result }
{
    let next = extents::walk_string(table, room, rows, text, good, r)?;
    let h = keys::place(text, table, room, notes, owner, r);
    if keys::crowded(notes, owner, h) {
        if keys::note_in(text, table, room, notes, owner, r, h) {
            return None;
        }
        return Some(next);
    }
    keys::join(notes, owner, r, h);
    Some(next)
}

// The key of row r where items have keys, or nothing.
#[inline(always)]
pub fn walk_key_if(
    keyed: bool,
    table: &[u32],
    room: usize,
    rows: usize,
    text: &[u8],
    good: usize,
    r: usize,
    notes: &mut [u16],
    owner: usize,
) -> Option<usize>
    requires { (keyed ≡ true → 0 < owner) × (owner ≤ r) × Prepared text.now room rows table.now good r notes.old }
    ensures { KeyIf text.now room rows table.now keyed owner r notes.old notes.new result }
{
    if keyed {
        walk_key(table, room, rows, text, good, r, notes, owner)
    } else {
        Some(r)
    }
}
