// The members of a Struct in a lent table: how many, whether two rows are one's, and the one that has a key. A member is a key's row and, behind it,
// its value's row; the value's `end` leads to the next key. Rows are looked at by their numbers and need not be those of a writable table, in
// which keys are distinct: where several members have the key, the first is found.
#![tactic(auto)]

ghost use Rattle.std.specs.Prelude.{◌≡◌, ◌+◌, ◌*◌, ◌≤◌, ◌<◌, length};
ghost use Rattle.draft.specs.Table.{row_at};
ghost use Rattle.member.specs.Members.{member_of, is_struct, has_key, member_in, members_from, members, find as findIn, same_member, is_among};

// A member: the row of its key and the row of its value.
#[repr(C)]
#[derive(Clone, Copy, PartialEq, Eq, Debug)]
pub struct Member {
    pub key: u32,
    pub value: u32,
}

// The kind of a Struct's row.
const STRUCT: u32 = 10;

// Whether row r is one of the stated rows, and a Struct's.
#[tactic(auto, unfolding(crate::specs::Members::is_struct))]
pub fn is_struct(table: &[u32], room: usize, rows: usize, r: usize) -> bool
    requires { (rows ≤ room) × (room ≤ 4096) × (room * 4 ≤ length table.now) }
    ensures { result ≡ is_struct (row_at room table.now) rows r }
{
    r < rows && table::get_row(table, room, r).kind == STRUCT
}

// Whether the text of row r has the bytes of a key.
fn has_key(table: &[u32], room: usize, text: &[u8], r: usize, key: &[u8]) -> bool
    requires { (r < room) × (room ≤ 4096) × (room * 4 ≤ length table.now) }
    ensures { result ≡ has_key (row_at room table.now) text.now key.now r }
{
    let row = table::get_row(table, room, r);
    names::equal(content::part(text, row.a as usize, row.b as usize), key)
}

// Where the item of row r ends.
pub fn end_of(table: &[u32], room: usize, r: usize) -> usize
    requires { (r < room) × (room ≤ 4096) × (room * 4 ≤ length table.now) }
    ensures { result ≡ (row_at room table.now r).end }
{
    table::get_row(table, room, r).end as usize
}

// The member whose key is row r.
fn member_at(r: usize) -> Member
    requires { r < 4096 }
    ensures { result ≡ member_of r (r + 1) }
{
    Member {
        key: r as u32,
        value: (r + 1) as u32,
    }
}

// The member whose key would be row r, if both of its rows are stated ones.
pub fn member_among(rows: usize, r: usize) -> Option<Member>
    requires { rows ≤ 4096 }
    ensures { result ≡ member_in rows r }
{
    if rows <= r || rows <= r + 1 {
        return None;
    }
    Some(member_at(r))
}

// The one with a key among n members, whose first key is row `first`.
fn find_from(
    table: &[u32],
    room: usize,
    rows: usize,
    text: &[u8],
    key: &[u8],
    n: usize,
    first: usize,
) -> Option<Member>
    requires { (rows ≤ room) × (room ≤ 4096) × (room * 4 ≤ length table.now) }
    ensures { result ≡ findIn (row_at room table.now) text.now key.now (members_from (row_at room table.now) rows n first) }
{
    let mut here = first;
    for _ in 0..n {
        let member = member_among(rows, here)?;
        if has_key(table, room, text, here, key) {
            return Some(member);
        }
        here = end_of(table, room, member.value as usize);
    }
    None
}

// The member with a key in the Struct of row r; a row that is no Struct has no members.
pub fn find(
    table: &[u32],
    room: usize,
    rows: usize,
    text: &[u8],
    r: usize,
    key: &[u8],
) -> Option<Member>
    requires { (rows ≤ room) × (room ≤ 4096) × (room * 4 ≤ length table.now) }
    ensures { result ≡ findIn (row_at room table.now) text.now key.now (members (row_at room table.now) rows r) }
{
    if is_struct(table, room, rows, r) {
        let row = table::get_row(table, room, r);
        find_from(table, room, rows, text, key, row.b as usize, r + 1)
    } else {
        None
    }
}

// How many of n members there are, whose first key is row `first`.
fn count_from(table: &[u32], room: usize, rows: usize, n: usize, first: usize) -> usize
    requires { (rows ≤ room) × (room ≤ 4096) × (room * 4 ≤ length table.now) }
    ensures { result ≡ length (members_from (row_at room table.now) rows n first) }
{
    let mut here = first;
    let mut c = 0;
    for _ in 0..n {
        let Some(counted) = member_among(rows, here) else {
            return c;
        };
        here = end_of(table, room, counted.value as usize);
        c += 1;
    }
    c
}

// How many members the Struct of row r has; a row that is no Struct has none.
pub fn count(table: &[u32], room: usize, rows: usize, r: usize) -> usize
    requires { (rows ≤ room) × (room ≤ 4096) × (room * 4 ≤ length table.now) }
    ensures { result ≡ length (members (row_at room table.now) rows r) }
{
    if is_struct(table, room, rows, r) {
        let row = table::get_row(table, room, r);
        count_from(table, room, rows, row.b as usize, r + 1)
    } else {
        0
    }
}

// Whether a member is the one whose key is row r.
#[tactic(auto, unfolding(crate::specs::Members::same_member))]
fn is_at(m: Member, r: usize) -> bool
    requires { r < 4096 }
    ensures { result ≡ same_member (member_of r (r + 1)) m }
{
    m.key as usize == r && m.value as usize == r + 1
}

// Whether m is among n members, whose first key is row `first`.
fn is_among(table: &[u32], room: usize, rows: usize, m: Member, n: usize, first: usize) -> bool
    requires { (rows ≤ room) × (room ≤ 4096) × (room * 4 ≤ length table.now) }
    ensures { result ≡ is_among m (members_from (row_at room table.now) rows n first) }
{
    let mut here = first;
    for _ in 0..n {
        let Some(_) = member_among(rows, here) else {
            return false;
        };
        if is_at(m, here) {
            return true;
        }
        here = end_of(table, room, here + 1);
    }
    false
}

// Whether m's two rows are those of a member of the Struct of row r: by the rows' ends, and no text is looked at.
pub fn is_member(table: &[u32], room: usize, rows: usize, r: usize, m: Member) -> bool
    requires { (rows ≤ room) × (room ≤ 4096) × (room * 4 ≤ length table.now) }
    ensures { result ≡ is_among m (members (row_at room table.now) rows r) }
{
    if is_struct(table, room, rows, r) {
        let row = table::get_row(table, room, r);
        is_among(table, room, rows, m, row.b as usize, r + 1)
    } else {
        false
    }
}
