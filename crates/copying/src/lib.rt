// A lent output cleared, and bytes copied to its front: the rest stays as it was.
#![tactic(auto)]

ghost use Rattle.std.specs.Prelude.{◌≡◌, ◌≤◌, length, replicate};
ghost use Rattle.copying.specs.Contract.{Front};

// Stays: `table::clear` is the same for words; both are one call of std's generic `fill`, and a generic one of our own is no plainer.
// All bytes zero.
pub fn clear(out: &mut [u8])
    ensures { out.new ≡ replicate (length out.old) 0 }
{
    out.fill(0);
}

// Bytes to the front, one after the other.
fn copy_singly(out: &mut [u8], t: &[u8])
    requires { length t.now ≤ length out.old }
    ensures { Front t.now out.old out.new }
{
    for i in 0..t.len() {
        out[i] = t[i];
    }
}

// Bytes to the front. Most texts have 8 to 16: the first eight and the last are all of them, with no loop. Of fewer than eight there is none
// either, once it is compiled: they have a call of their own.
pub fn copy(out: &mut [u8], t: &[u8])
    requires { length t.now ≤ length out.old }
    ensures { Front t.now out.old out.new }
{
    if t.len() < 8 {
        copy_singly(out, t);
        return;
    }
    if 16 < t.len() {
        copy_singly(out, t);
        return;
    }
    eight_bytes::copy_eight(out, t, 0);
    eight_bytes::copy_eight(out, t, t.len() - 8);
}
