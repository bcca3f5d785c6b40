// Few bytes below 128: single ones from a place on, and those at the front of a text of up to 16 bytes. Each function that passes some gives
// the place after them. A place to begin at is assumed to be none past the end.
#![tactic(auto)]

ghost use Rattle.std.specs.Prelude.{◌≡◌, ◌+◌, ◌≤◌, length, take, drop};
ghost use Rattle.text.specs.Texts.{ascii};
ghost use Rattle.text.specs.Runs.{Run};

use ascii::is_single;
use eights::eight_below;

// Past single bytes below 128.
pub fn past_singles(s: &[u8], from: usize) -> usize
    requires { from ≤ length s.now }
    ensures { Run s.now from result }
{
    for at in from..s.len() {
        if !s[at].is_ascii() {
            return at;
        }
    }
    s.len()
}

// Whether the four bytes at `at` are below 128. No branch stands between them.
fn few_below(s: &[u8], at: usize) -> bool
    requires { at + 4 ≤ length s.now }
    ensures { result ≡ ascii (take 4 (drop at s.now)) }
{
    is_single(s[at]) & is_single(s[at + 1]) & is_single(s[at + 2]) & is_single(s[at + 3])
}

// Past all bytes of up to 16, if they are below 128, by the first and the last four or eight of them; else past some or none.
pub fn past_short(s: &[u8]) -> usize
    requires { length s.now ≤ 16 }
    ensures { Run s.now 0 result }
{
    let end = s.len();
    if end < 4 {
        return past_singles(s, 0);
    }
    if end < 8 {
        if few_below(s, 0) & few_below(s, end - 4) {
            return end;
        }
        return 0;
    }
    let ends = eight_below(s, 0) & eight_below(s, end - 8);
    if ends {
        return end;
    }
    0
}
