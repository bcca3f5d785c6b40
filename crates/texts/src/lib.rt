// The texts of a message's strings: the first string of each.
// Strings are numbered in row order; of string j a lent word has the row.
#![tactic(auto)]

ghost use Rattle.std.specs.Prelude.{◌≡◌, ◌≤◌, ◌<◌, length, replicate};
ghost use Rattle.draft.specs.Table.{row_at};
ghost use Rattle.buckets.specs.Numbered.{numbered_text, Strings, Through};
ghost use Rattle.texts.specs.Contract.{NewCost, Scanned};

// What string j costs at least, where its text is first that of string f: its text where it is new, else nothing.
fn new_cost(table: &[u32], room: usize, strings: &[u16], text: &[u8], f: usize, j: usize) -> usize
    requires { Through room (length table.now) j strings.now × (length text.now ≤ 65536) }
    ensures { NewCost (numbered_text (row_at room table.now) strings.now text.now) j f result }
{
    if f == j {
        let t = buckets::text_of(table, room, strings, text, j);
        5 + t.len()
    } else {
        0
    }
}

// The first string of each text. Stops where the new texts alone cost over 65,536. The heads of the chains are
// lent as zeros, the links as they are.
pub fn scan(
    table: &[u32],
    room: usize,
    strings: &[u16],
    count: usize,
    text: &[u8],
    firsts: &mut [u16],
    heads: &mut [u16],
    nexts: &mut [u16],
) -> bool
    requires { Strings room (length table.now) count strings.now × (length text.now ≤ 65536) × (count ≤ length firsts.old) × (count ≤ length nexts.old) × (heads.old ≡ replicate (length heads.old) 0) × (0 < length heads.old) × (length heads.old ≤ 4096) }
    ensures { Scanned (numbered_text (row_at room table.now) strings.now text.now) count firsts.new result }
{
    let mut sum: usize = 0;
    for j in 0..count {
        let f = buckets::find_or_add(table, room, strings, text, heads, nexts, j);
        firsts[j] = f as u16;
        sum += new_cost(table, room, strings, text, f, j);
        if 65536 < sum {
            return false;
        }
    }
    true
}
