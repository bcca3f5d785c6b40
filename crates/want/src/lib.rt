// How many bytes a message that was refused with 1 has at least when its answer changes: found by the item at the refusal's place, without
// reading again. A message has at most 65,536 bytes.
#![tactic(auto)]

ghost use Rattle.std.specs.Prelude.{◌≡◌, ◌+◌, ◌≤◌, ◌<◌, length};
ghost use Rattle.wanting.specs.Want.{want_of};
ghost use Rattle.want.specs.Ends.{short_end, long_end};

// A byte as a number: its caller has no fit of the element to show.
fn wide(x: u8) -> usize
    ensures { (result ≡ x) × (result < 256) }
{
    x as usize
}

// The end of a Double or a DateTime: of its size byte, if that was cut, or of its content.
fn short_end(s: &[u8], at: usize) -> usize
    requires { (at < length s.now) × (length s.now ≤ 65536) }
    ensures { result ≡ short_end s.now at }
{
    if s.len() < at + 2 {
        return at + 2;
    }
    at + 2 + wide(s[at + 1])
}

// The end of an item whose length stands p bytes behind its tag: of the length, if that was cut, or of its content.
fn long_end(s: &[u8], at: usize, p: usize) -> usize
    requires { (at < length s.now) × (length s.now ≤ 65536) × (p ≤ 2) }
    ensures { result ≡ long_end s.now at p }
{
    let fields = at + (p + 4);
    if s.len() < fields {
        return fields;
    }
    fields + item::unsigned(s, at + p)
}

// The end of the fields, or of the content, of the item at a place: what was cut there.
pub fn wants(s: &[u8], at: usize) -> usize
    requires { length s.now ≤ 65536 }
    ensures { result ≡ want_of s.now at }
{
    if s.len() <= at {
        return s.len() + 1;
    }
    match s[at] {
        b'I' => at + 5,
        b'D' => short_end(s, at),
        b'8' => short_end(s, at),
        b'B' => long_end(s, at, 1),
        b'A' => at + 5,
        b'S' => at + 5,
        b'U' => long_end(s, at, 1),
        b'>' => long_end(s, at, 2),
        b'<' => at + 2,
        _ => at + 1,
    }
}
