// Bytes, numbers and texts into a lent output. Each function that puts something puts its bytes to the front of the output that it is
// lent, leaves the rest as it was, and answers how many bytes they are. One that tries puts them only if they are at most so many.
#![tactic(auto)]

ghost use Rattle.std.specs.Prelude.{[], ◌∷◌, ◌+◌, ◌≤◌, length};
ghost use Rattle.draft.specs.Written.{lsb, counted, size};
ghost use Rattle.copying.specs.Contract.{Front};
ghost use Rattle.output.specs.Contract.{Put, Tried};

// A number as four bytes.
fn put_four(out: &mut [u8], n: usize)
    requires { 4 ≤ length out.old }
    ensures { Front (lsb n) out.old out.new }
{
    out[..4].copy_from_slice(&n.to_le_bytes()[..4]);
}

// Bytes with their number before them.
fn put_counted(out: &mut [u8], t: &[u8])
    requires { 4 + length t.now ≤ length out.old }
    ensures { Front (counted t.now) out.old out.new }
{
    put_four(out, t.len());
    copying::copy(&mut out[4..], t);
}

// Bytes as they are.
pub fn put_bytes(out: &mut [u8], t: &[u8]) -> usize
    requires { length t.now ≤ length out.old }
    ensures { Put t.now out.old out.new result }
{
    copying::copy(out, t);
    t.len()
}

fn put_one(out: &mut [u8], b: u8) -> usize
    requires { 1 ≤ length out.old }
    ensures { Put (b ∷ []) out.old out.new result }
{
    out[0] = b;
    1
}

fn put_two(out: &mut [u8], b: u8, c: u8) -> usize
    requires { 2 ≤ length out.old }
    ensures { Put (b ∷ c ∷ []) out.old out.new result }
{
    out[0] = b;
    out[1] = c;
    2
}

// A letter and a number: an Integer, or what begins an Array or a Struct.
fn put_number(out: &mut [u8], b: u8, n: usize) -> usize
    requires { 5 ≤ length out.old }
    ensures { Put (b ∷ lsb n) out.old out.new result }
{
    put_one(out, b);
    put_four(&mut out[1..], n);
    5
}

// A letter, a size byte and content: a Double or a DateTime.
fn put_short(out: &mut [u8], b: u8, t: &[u8]) -> usize
    requires { 2 + length t.now ≤ length out.old }
    ensures { Put (b ∷ size t.now ∷ t.now) out.old out.new result }
{
    put_two(out, b, (t.len() % 256) as u8);
    copying::copy(&mut out[2..], t);
    2 + t.len()
}

// A letter, a length and content: a Binary or a regular String.
fn put_long(out: &mut [u8], b: u8, t: &[u8]) -> usize
    requires { 5 + length t.now ≤ length out.old }
    ensures { Put (b ∷ counted t.now) out.old out.new result }
{
    put_one(out, b);
    put_counted(&mut out[1..], t);
    5 + t.len()
}

// A recorded String.
fn put_recorded(out: &mut [u8], p: u8, t: &[u8]) -> usize
    requires { 6 + length t.now ≤ length out.old }
    ensures { Put (62 ∷ p ∷ counted t.now) out.old out.new result }
{
    put_two(out, b'>', p);
    put_counted(&mut out[2..], t);
    6 + t.len()
}

// Stays: one function over a closure that puts the bytes would ask each caller for the closure's contract over the output, and is no plainer.
// A byte, tried.
pub fn try_one(out: &mut [u8], most: usize, b: u8) -> usize
    requires { most ≤ length out.old }
    ensures { Tried (b ∷ []) most out.old out.new result }
{
    if most < 1 {
        return 1;
    }
    put_one(out, b)
}

// Two bytes.
pub fn try_two(out: &mut [u8], most: usize, b: u8, c: u8) -> usize
    requires { most ≤ length out.old }
    ensures { Tried (b ∷ c ∷ []) most out.old out.new result }
{
    if most < 2 {
        return 2;
    }
    put_two(out, b, c)
}

// A letter and a number.
pub fn try_number(out: &mut [u8], most: usize, b: u8, n: usize) -> usize
    requires { most ≤ length out.old }
    ensures { Tried (b ∷ lsb n) most out.old out.new result }
{
    if most < 5 {
        return 5;
    }
    put_number(out, b, n)
}

// A letter, a size byte and content.
pub fn try_short(out: &mut [u8], most: usize, b: u8, t: &[u8]) -> usize
    requires { (most ≤ length out.old) × (length t.now ≤ 65536) }
    ensures { Tried (b ∷ size t.now ∷ t.now) most out.old out.new result }
{
    if most < 2 + t.len() {
        return 2 + t.len();
    }
    put_short(out, b, t)
}

// A letter, a length and content.
pub fn try_long(out: &mut [u8], most: usize, b: u8, t: &[u8]) -> usize
    requires { (most ≤ length out.old) × (length t.now ≤ 65536) }
    ensures { Tried (b ∷ counted t.now) most out.old out.new result }
{
    if most < 5 + t.len() {
        return 5 + t.len();
    }
    put_long(out, b, t)
}

// A recorded String.
pub fn try_recorded(out: &mut [u8], most: usize, p: u8, t: &[u8]) -> usize
    requires { (most ≤ length out.old) × (length t.now ≤ 65536) }
    ensures { Tried (62 ∷ p ∷ counted t.now) most out.old out.new result }
{
    if most < 6 + t.len() {
        return 6 + t.len();
    }
    put_recorded(out, p, t)
}
