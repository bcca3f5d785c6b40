// The objects of a table that an edition can write, put into a lent output in their written form. `put_object` puts one. `put_entries` puts
// some, one after the other: those without children in its loop, those with children by functions that call one another in a cycle, in which
// `deep`, the nesting left, falls. The rows of a plain dict's keys are put in order in the lent words `order`: a dict of n pairs takes the
// first n, and its values the words behind them.
#![tactic(auto)]

ghost use Rattle.std.specs.Prelude.{◌≡◌, true, [], ◌∷◌, ◌++◌, ◌+◌, ◌-◌, ◌/◌, ◌≤◌, length};
ghost use Rattle.draft.specs.Read.{text_of};
ghost use Rattle.draft.specs.Table.{row_at};
ghost use Rattle.sorting.specs.Sorting.{key_text};
ghost use Rattle.glyph_form.specs.Form.{content_bytes};
ghost use Rattle.glyph_output.specs.Contract.{Open, Adds};
ghost use Rattle.glyph_rows.specs.Holding.{holds as holdsBy};
ghost use Rattle.glyph_puts.specs.Contract.{Ready, Fit, Children, Members, leaf_form, object_bytes, entries_bytes, pair_bytes, pairs_bytes, dict_bytes, Paired};

use draft::Row;
use glyph::Edition;

// A letter and the text of a row.
fn put_text(text: &[u8], row: Row, letter: u8, most: usize, at: usize, out: &mut [u8]) -> usize
    requires { (length text.now ≤ 65536) × Open most (length out.old) at }
    ensures { Adds (letter ∷ content_bytes (text_of text.now row)) most out.old at out.new result }
{
    let t = content::part(text, row.a as usize, row.b as usize);
    glyph_output::put_content(out, most, at, letter, t)
}

// An object without children, by its row. It is the same in both editions.
fn put_leaf(text: &[u8], row: Row, most: usize, at: usize, out: &mut [u8]) -> usize
    requires { (length text.now ≤ 65536) × Open most (length out.old) at }
    ensures { Adds (leaf_form text.now row) most out.old at out.new result }
{
    match row.kind {
        4 => glyph_output::put_integer(out, most, at, row.a),
        5 => glyph_output::put_boolean(out, most, at, row.a),
        8 => put_text(text, row, b'b', most, at, out),
        11 => put_text(text, row, b'u', most, at, out),
        _ => glyph_output::put_single(out, most, at, b'N'),
    }
}

// n objects, one after the other.
#[cycle(putting)]
fn put_entries(
    edition: Edition,
    table: &[u32],
    room: usize,
    text: &[u8],
    deep: usize,
    n: usize,
    first: usize,
    order: &mut [u32],
    most: usize,
    at: usize,
    out: &mut [u8],
) -> usize
    requires { Ready room (length table.now) (length text.now) × Open most (length out.old) at × Children (row_at room table.now) room text.now edition deep (length order.old) n first }
    ensures { Adds (entries_bytes (row_at room table.now) text.now edition deep n first) most out.old at out.new result }
{
    let mut here = first;
    let mut stop = at;
    for _ in 0..n {
        let row = table::get_row(table, room, here);
        stop = if glyph_rows::holds(row.kind) {
            put_container(
                edition, table, room, text, deep, row, here, order, most, stop, out,
            )
        } else {
            put_leaf(text, row, most, stop, out)
        };
        here = row.end as usize;
    }
    stop
}

// A letter, n objects and `;`: a list, an extension or a node.
#[cycle(putting)]
fn put_list(
    edition: Edition,
    table: &[u32],
    room: usize,
    text: &[u8],
    deep: usize,
    letter: u8,
    n: usize,
    first: usize,
    order: &mut [u32],
    most: usize,
    at: usize,
    out: &mut [u8],
) -> usize
    requires { Ready room (length table.now) (length text.now) × Open most (length out.old) at × Children (row_at room table.now) room text.now edition deep (length order.old) n first }
    ensures { Adds (letter ∷ (entries_bytes (row_at room table.now) text.now edition deep n first ++ (59 ∷ []))) most out.old at out.new result }
{
    let start = glyph_output::put_byte(out, most, at, letter);
    let stop = put_entries(
        edition, table, room, text, deep, n, first, order, most, start, out,
    );
    glyph_output::put_byte(out, most, stop, b';')
}

// The pair of the key at row k.
#[cycle(putting)]
fn put_pair(
    edition: Edition,
    table: &[u32],
    room: usize,
    text: &[u8],
    deep: usize,
    k: usize,
    order: &mut [u32],
    most: usize,
    at: usize,
    out: &mut [u8],
) -> usize
    requires { Ready room (length table.now) (length text.now) × Open most (length out.old) at × Fit (row_at room table.now) room text.now edition deep (length order.old) (k + 1) }
    ensures { Paired (pair_bytes (row_at room table.now) text.now edition deep (key_text room (row_at room table.now) text.now) k) most out.old at out.new result order.old order.new }
{
    let key = sorting::key_text(table, room, text, k);
    let start = glyph_output::put_content(out, most, at, b'u', key);
    put_entries(
        edition,
        table,
        room,
        text,
        deep,
        1,
        k + 1,
        order,
        most,
        start,
        out,
    )
}

// An ordered_dict: its n pairs as they stand.
#[cycle(putting)]
fn put_ordered(
    edition: Edition,
    table: &[u32],
    room: usize,
    text: &[u8],
    deep: usize,
    n: usize,
    first: usize,
    order: &mut [u32],
    most: usize,
    at: usize,
    out: &mut [u8],
) -> usize
    requires { Ready room (length table.now) (length text.now) × Open most (length out.old) at × Members (row_at room table.now) room text.now edition deep (length order.old) n first }
    ensures { Adds (79 ∷ (pairs_bytes (row_at room table.now) text.now edition deep n first ++ (59 ∷ []))) most out.old at out.new result }
{
    let mut here = first;
    let mut stop = glyph_output::put_byte(out, most, at, b'O');
    for _ in 0..n {
        stop = put_pair(
            edition, table, room, text, deep, here, order, most, stop, out,
        );
        here = table::get_row(table, room, here + 1).end as usize;
    }
    glyph_output::put_byte(out, most, stop, b';')
}

// A dict: its n pairs in byte order of their keys.
#[cycle(putting)]
fn put_dict(
    edition: Edition,
    table: &[u32],
    room: usize,
    text: &[u8],
    deep: usize,
    n: usize,
    first: usize,
    order: &mut [u32],
    most: usize,
    at: usize,
    out: &mut [u8],
) -> usize
    requires { Ready room (length table.now) (length text.now) × Open most (length out.old) at × (n + n / 2 ≤ length order.old) × Members (row_at room table.now) room text.now edition deep (length order.old - n) n first }
    ensures { Adds (68 ∷ (dict_bytes (row_at room table.now) text.now edition deep n first ++ (59 ∷ []))) most out.old at out.new result }
{
    key_order::arrange(table, room, text, n, first, most, order);
    let mut stop = glyph_output::put_byte(out, most, at, b'D');
    for i in 0..n {
        let k = order[i] as usize;
        stop = put_pair(
            edition,
            table,
            room,
            text,
            deep,
            k,
            &mut order[n..],
            most,
            stop,
            out,
        );
    }
    glyph_output::put_byte(out, most, stop, b';')
}

// The object with children of row r.
#[cycle(putting)]
fn put_container(
    edition: Edition,
    table: &[u32],
    room: usize,
    text: &[u8],
    deep: usize,
    row: Row,
    r: usize,
    order: &mut [u32],
    most: usize,
    at: usize,
    out: &mut [u8],
) -> usize
    requires { Ready room (length table.now) (length text.now) × Open most (length out.old) at × Fit (row_at room table.now) room text.now edition deep (length order.old) r × (row ≡ row_at room table.now r) × (holdsBy row.kind ≡ true) }
    ensures { Adds (object_bytes (row_at room table.now) text.now edition deep r) most out.old at out.new result }
{
    if deep == 0 {
        return at;
    }
    let deep = deep - 1;
    let n = row.b as usize;
    let first = r + 1;
    match row.kind {
        9 => put_list(
            edition, table, room, text, deep, b'L', n, first, order, most, at, out,
        ),
        10 => put_dict(
            edition, table, room, text, deep, n, first, order, most, at, out,
        ),
        14 => put_ordered(
            edition, table, room, text, deep, n, first, order, most, at, out,
        ),
        15 => {
            let letter = glyph_rows::extension_letter(edition);
            put_list(
                edition, table, room, text, deep, letter, 3, first, order, most, at, out,
            )
        }
        16 => put_list(
            edition, table, room, text, deep, b'X', 3, first, order, most, at, out,
        ),
        _ => at,
    }
}

// The object of row r.
pub fn put_object(
    edition: Edition,
    table: &[u32],
    room: usize,
    text: &[u8],
    deep: usize,
    r: usize,
    order: &mut [u32],
    most: usize,
    at: usize,
    out: &mut [u8],
) -> usize
    requires { Ready room (length table.now) (length text.now) × Open most (length out.old) at × Fit (row_at room table.now) room text.now edition deep (length order.old) r }
    ensures { Adds (object_bytes (row_at room table.now) text.now edition deep r) most out.old at out.new result }
{
    put_entries(edition, table, room, text, deep, 1, r, order, most, at, out)
}
