// Runs of bytes below 128, passed many at a time. Each function that passes some gives the place after them. Those that begin at a place
// assume that it is none past the end.
#![tactic(auto)]

ghost use Rattle.std.specs.Prelude.{◌≡◌, ◌+◌, ◌≤◌, length, take, drop};
ghost use Rattle.text.specs.Texts.{ascii};
ghost use Rattle.text.specs.Runs.{Run};

use eights::eight_below;
use short_runs::{past_short, past_singles};

// Whether the four eights at `at` are below 128. No branch stands between them, so that the compiler can take them together.
fn four_below(s: &[u8], at: usize) -> bool
    requires { at + 32 ≤ length s.now }
    ensures { result ≡ ascii (take 32 (drop at s.now)) }
{
    eight_below(s, at) & eight_below(s, at + 8) & eight_below(s, at + 16) & eight_below(s, at + 24)
}

// And twice as many.
fn many_below(s: &[u8], at: usize) -> bool
    requires { at + 64 ≤ length s.now }
    ensures { result ≡ ascii (take 64 (drop at s.now)) }
{
    four_below(s, at) & four_below(s, at + 32)
}

// And four times as many.
fn most_below(s: &[u8], at: usize) -> bool
    requires { at + 256 ≤ length s.now }
    ensures { result ≡ ascii (take 256 (drop at s.now)) }
{
    many_below(s, at) & many_below(s, at + 64) & many_below(s, at + 128) & many_below(s, at + 192)
}

// Stays: the place moves by as many bytes as a turn looks at, and it is what is answered; chunks_exact gives chunks, and no place.
// Past bytes below 128, 256 a turn.
fn past_most(s: &[u8], from: usize) -> usize
    requires { from ≤ length s.now }
    ensures { Run s.now from result }
{
    let mut at = from;
    while 256 <= s.len() - at && most_below(s, at) {
        at += 256;
    }
    at
}

// 64 a turn.
fn past_many(s: &[u8], from: usize) -> usize
    requires { from ≤ length s.now }
    ensures { Run s.now from result }
{
    let mut at = from;
    while 64 <= s.len() - at && many_below(s, at) {
        at += 64;
    }
    at
}

// Eight a turn.
fn past_eights(s: &[u8], from: usize) -> usize
    requires { from ≤ length s.now }
    ensures { Run s.now from result }
{
    let mut at = from;
    while 8 <= s.len() - at && eight_below(s, at) {
        at += 8;
    }
    at
}

// Past bytes below 128, if eight stand at `from`.
fn past_run(s: &[u8], from: usize) -> usize
    requires { from ≤ length s.now }
    ensures { Run s.now from result }
{
    if 8 <= s.len() - from && eight_below(s, from) {
        return past_eights(s, past_many(s, past_most(s, from + 8)));
    }
    from
}

// The same after a character, and only where 32 bytes are left: in a short text that is not all ASCII single bytes cost less.
pub fn past_more(s: &[u8], from: usize) -> usize
    requires { from ≤ length s.now }
    ensures { Run s.now from result }
{
    if 32 <= s.len() - from {
        return past_run(s, from);
    }
    from
}

// Past the last bytes, fewer than eight, if they are below 128. In a text of eight or more its last eight are looked at, some again.
fn past_last(s: &[u8], from: usize) -> usize
    requires { from ≤ length s.now }
    ensures { Run s.now from result }
{
    let end = s.len();
    if end < 8 {
        return past_singles(s, from);
    }
    if end - from < 8 && eight_below(s, end - 8) {
        return end;
    }
    from
}

// Past bytes below 128 at the front: past all bytes, where they are all below 128.
pub fn past_front(s: &[u8]) -> usize
    ensures { Run s.now 0 result }
{
    if s.len() <= 16 {
        return past_short(s);
    }
    past_last(s, past_run(s, 0))
}
