// The room that the pieces of a message are held in: lent bytes, of which the first 65,536 are used.
#![tactic(auto)]

ghost use Rattle.std.specs.Prelude.{◌≡◌, ◌+◌, ◌≤◌, length};
ghost use Rattle.std.proofs.Math.Seq.{paste};
ghost use Rattle.room.specs.Room.{Held};

// The most bytes that are held.
pub const MOST: usize = 65536;

// The first n bytes of some others, from byte `at` on.
fn copy_in(bytes: &mut [u8], at: usize, others: &[u8], n: usize)
    requires { (at + n ≤ length bytes.old) × (n ≤ length others.now) }
    ensures { bytes.new ≡ paste bytes.old at others.now n }
{
    for i in 0..n {
        bytes[at + i] = others[i];
    }
}

// As much of a piece as there is room for, behind the bytes held. Gives how many are held then.
pub fn hold(room: &mut [u8], held: usize, piece: &[u8]) -> usize
    requires { (held ≤ 65536) × (65536 ≤ length room.old) }
    ensures { Held held piece.now room.old room.new result }
{
    if MOST - held < piece.len() {
        copy_in(room, held, piece, MOST - held);
        return MOST;
    }
    copy_in(room, held, piece, piece.len());
    held + piece.len()
}
