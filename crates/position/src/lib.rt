// A position for the laser station: the members x, y and turn of one Struct, each from a Double. It is what three lookups give; the table is
// judged once for all three.
#![tactic(auto, using(crate::proofs::Judging::placing))]

ghost use Rattle.std.specs.Prelude.{◌≡◌};
ghost use Rattle.placing.specs.Placing.{position as positionIn};

use lookup_answer::Refusal;
use placing::Placed;

// The position in the Struct of row r, for any table with a stated number of rows, its texts in the text bytes.
pub fn position_of(table: &[u32], rows: usize, text: &[u8], r: usize) -> Placed
    ensures { result ≡ positionIn table.now rows text.now r }
{
    if !shape::writable(table, rows, text) {
        return placing::refused(Refusal::NotWritable);
    }
    let room = table::room_of(table.len());
    let x = lookup::look(table, room, rows, text, r, b"x");
    let y = lookup::look(table, room, rows, text, r, b"y");
    let turn = lookup::look(table, room, rows, text, r, b"turn");
    placing::settle(x, y, turn)
}
