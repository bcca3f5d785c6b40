// Eight bytes of a text into a lent output, with no loop.
#![tactic(auto)]

ghost use Rattle.std.specs.Prelude.{◌≡◌, ◌+◌, ◌≤◌, length};
ghost use Rattle.eight_bytes.specs.Contract.{eight_at};

// The eight bytes at `at`, to the same place. Compiled, it is one load and one store.
pub fn copy_eight(out: &mut [u8], t: &[u8], at: usize)
    requires { (at + 8 ≤ length t.now) × (length t.now ≤ length out.old) }
    ensures { out.new ≡ eight_at t.now at out.old }
{
    let a = t[at];
    let b = t[at + 1];
    let c = t[at + 2];
    let d = t[at + 3];
    let e = t[at + 4];
    let f = t[at + 5];
    let g = t[at + 6];
    let h = t[at + 7];
    out[at] = a;
    out[at + 1] = b;
    out[at + 2] = c;
    out[at + 3] = d;
    out[at + 4] = e;
    out[at + 5] = f;
    out[at + 6] = g;
    out[at + 7] = h;
}
