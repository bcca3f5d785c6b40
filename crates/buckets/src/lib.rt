// The first string of each text, found by buckets: the strings that are the first of their text are chained by bucket, and a text is
// compared with those on its bucket's chain alone.
// Strings are numbered in row order; of string j a lent word has the row.
#![tactic(auto)]

ghost use Rattle.std.specs.Prelude.{◌≡◌, ◌≤◌, ◌<◌, length};
ghost use Rattle.text.specs.Texts.{same};
ghost use Rattle.draft.specs.Table.{row_at};
ghost use Rattle.buckets.specs.Chains.{Chains, Ahead, Found};
ghost use Rattle.buckets.specs.Numbered.{numbered_text, Through, First};

// The text of string j.
pub fn text_of<'a>(
    table: &[u32],
    room: usize,
    strings: &[u16],
    text: &'a [u8],
    j: usize,
) -> &'a [u8]
    requires { Through room (length table.now) j strings.now }
    ensures { result.now ≡ numbered_text (row_at room table.now) strings.now text.now j }
{
    let row = table::get_row(table, room, strings[j] as usize);
    content::part(text, row.a as usize, row.b as usize)
}

// Whether strings j and k have equal texts. Bytes are compared only where the lengths are equal and the offsets are not.
pub fn equal_texts(
    table: &[u32],
    room: usize,
    strings: &[u16],
    text: &[u8],
    k: usize,
    j: usize,
) -> bool
    requires { Through room (length table.now) j strings.now × (k ≤ j) }
    ensures { result ≡ same (numbered_text (row_at room table.now) strings.now text.now k) (numbered_text (row_at room table.now) strings.now text.now j) }
{
    let x = table::get_row(table, room, strings[k] as usize);
    let y = table::get_row(table, room, strings[j] as usize);
    if x.a == y.a && x.b == y.b {
        return true;
    }
    names::equal(
        content::part(text, x.a as usize, x.b as usize),
        content::part(text, y.a as usize, y.b as usize),
    )
}

// The first string whose text is that of string j: on its bucket's chain, or else string j itself.
fn find(
    table: &[u32],
    room: usize,
    strings: &[u16],
    text: &[u8],
    nexts: &[u16],
    newest: usize,
    j: usize,
) -> usize
    requires { Through room (length table.now) j strings.now × (j ≤ length nexts.now) × Ahead (numbered_text (row_at room table.now) strings.now text.now) j nexts.now newest }
    ensures { First (numbered_text (row_at room table.now) strings.now text.now) j result }
{
    let mut c = newest;
    while 0 < c {
        if equal_texts(table, room, strings, text, c - 1, j) {
            return c - 1;
        }
        c = nexts[c - 1] as usize;
    }
    j
}

// The first string whose text is that of string j. A new text goes to the front of its bucket's chain.
pub fn find_or_add(
    table: &[u32],
    room: usize,
    strings: &[u16],
    text: &[u8],
    heads: &mut [u16],
    nexts: &mut [u16],
    j: usize,
) -> usize
    requires { Through room (length table.now) j strings.now × (j < length nexts.old) × Chains (numbered_text (row_at room table.now) strings.now text.now) j heads.old nexts.old }
    ensures { Found (numbered_text (row_at room table.now) strings.now text.now) j heads.new nexts.new result }
{
    let h = spread::bucket(text_of(table, room, strings, text, j), 0, heads.len());
    let newest = heads[h];
    let f = find(table, room, strings, text, nexts, newest as usize, j);
    if f != j {
        return f;
    }
    nexts[j] = newest;
    heads[h] = (j + 1) as u16;
    j
}
