// The rule for a fault's members, over the rows that stand below its Struct in a lent table, with the bytes that their texts lie in.
#![tactic(auto)]

ghost use Rattle.std.specs.Prelude.{◌≡◌, ◌+◌, ◌*◌, ◌-◌, ◌≤◌, ◌<◌, eqb, length};
ghost use Rattle.draft.specs.Content.{is_text, is_code, is_message, fault_rule};
ghost use Rattle.draft.specs.Table.{row_at, rows_at};
ghost use Rattle.draft.specs.Read.{held_row, held_rows};

use draft::{Refusal, Verdict};

// The kinds of an Integer's row and of a String's.
const INTEGER: u32 = 4;

const STRING: u32 = 11;

// Whether row r is of a kind.
fn is_kind(table: &[u32], room: usize, r: usize, kind: u32) -> bool
    requires { (r < room) × (room ≤ 4096) × (room * 4 ≤ length table.now) }
    ensures { result ≡ eqb (row_at room table.now r).kind kind }
{
    let row = table::get_row(table, room, r);
    row.kind == kind
}

// Whether row r is a String with the bytes of `name`.
fn is_text(table: &[u32], room: usize, text: &[u8], r: usize, name: &[u8]) -> bool
    requires { (r < room) × (room ≤ 4096) × (room * 4 ≤ length table.now) }
    ensures { result ≡ is_text name.now (held_row text.now (row_at room table.now r)) }
{
    let row = table::get_row(table, room, r);
    if row.kind == STRING {
        names::equal(content::part(text, row.a as usize, row.b as usize), name)
    } else {
        false
    }
}

// Whether rows r and r + 1 are the key faultCode and an Integer.
fn is_code(table: &[u32], room: usize, text: &[u8], r: usize) -> bool
    requires { (r + 1 < room) × (room ≤ 4096) × (room * 4 ≤ length table.now) }
    ensures { result ≡ is_code (held_row text.now (row_at room table.now r)) (held_row text.now (row_at room table.now (r + 1))) }
{
    is_text(table, room, text, r, b"faultCode") & is_kind(table, room, r + 1, INTEGER)
}

// Whether rows r and r + 1 are the key faultString and a String.
fn is_message(table: &[u32], room: usize, text: &[u8], r: usize) -> bool
    requires { (r + 1 < room) × (room ≤ 4096) × (room * 4 ≤ length table.now) }
    ensures { result ≡ is_message (held_row text.now (row_at room table.now r)) (held_row text.now (row_at room table.now (r + 1))) }
{
    is_text(table, room, text, r, b"faultString") & is_kind(table, room, r + 1, STRING)
}

// What the rule says of the Struct of row r, whose last descendant is the row before `end`.
pub fn judge(table: &[u32], room: usize, text: &[u8], r: usize, end: usize) -> Verdict
    requires { (r ≤ room) × (end ≤ room) × (room ≤ 4096) × (room * 4 ≤ length table.now) }
    ensures { result ≡ fault_rule (held_rows text.now (rows_at room table.now (r + 1) (end - (r + 1)))) }
{
    let first = r + 1;
    let second = r + 3;
    if end != r + 5 {
        return Err(Refusal::BadFault);
    }
    let code_first = is_code(table, room, text, first) & is_message(table, room, text, second);
    let message_first = is_message(table, room, text, first) & is_code(table, room, text, second);
    if code_first | message_first {
        Ok(())
    } else {
        Err(Refusal::BadFault)
    }
}
