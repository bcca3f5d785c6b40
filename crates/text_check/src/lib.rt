// The text check: well-formed UTF-8 by RFC 3629, with runs of bytes below 128 passed eight at a time, and byte by byte; and that the
// two answer the same. What a user calls assumes nothing.
#![tactic(auto)]

ghost use Rattle.std.specs.Prelude.{◌≡◌, true, drop};
ghost use Rattle.text.specs.Utf8.{well_formed};
ghost use Rattle.text.specs.Classes.{class_table};
ghost use Rattle.steps.specs.States.{step_table};

use ascii::is_single;
use byte_classes::CLASSES;
use characters::width_at;
use eights::eight_below;
use runs::{past_front, past_more};
use steps::{STEPS, eight_steps, step};

// Stays: a turn passes one to four bytes, by the character, so no iterator over the bytes fits.
// Whether the bytes are well-formed UTF-8. One character a turn; a byte below 128 is one, and is not looked up.
fn walk(table: &[u8; 256], s: &[u8]) -> bool
    requires { table.now ≡ class_table }
    ensures { result ≡ well_formed s.now }
{
    let mut at = 0;
    while at < s.len() {
        if is_single(s[at]) {
            at += 1;
        } else {
            let n = width_at(table, s, at);
            if n == 0 {
                return false;
            }
            at += n;
        }
    }
    true
}

// Whether the bytes are well-formed UTF-8, byte by byte.
pub fn is_utf8_bytewise(s: &[u8]) -> bool
    ensures { result ≡ well_formed s.now }
{
    walk(&CLASSES, s)
}

// Stays: a turn passes one byte, eight, or a run, so no iterator over the bytes fits.
// Whether the bytes are well-formed UTF-8, where those before `from` are characters. Eight bytes a turn: a run of bytes below 128 is passed
// at once, where a character may begin, and others are stepped over with no branch, since widths that vary make one hard to foresee.
fn walk_runs(table: &[u8; 256], words: &[u64; 12], s: &[u8], from: usize) -> bool
    requires { (table.now ≡ class_table) × (words.now ≡ step_table) × (well_formed s.now ≡ well_formed (drop from s.now)) }
    ensures { result ≡ well_formed s.now }
{
    let mut at = from;
    let mut state = 0;
    while at < s.len() {
        if s.len() - at < 8 {
            state = step(table, words, state, s[at]);
            at += 1;
        } else {
            if (state == 0) & eight_below(s, at) {
                at = past_more(s, at + 8);
            } else {
                state = eight_steps(table, words, s, at, state);
                at += 8;
            }
        }
    }
    state == 0
}

// The same, with the tables laid out here, so that they are only for texts that have a byte from 128 on. It has callers outside too, so that it
// is compiled by itself: inside another function its loop was half as fast.
pub fn walk_from(s: &[u8], from: usize) -> bool
    requires { well_formed s.now ≡ well_formed (drop from s.now) }
    ensures { result ≡ well_formed s.now }
{
    walk_runs(&CLASSES, &STEPS, s, from)
}

// Whether the bytes are well-formed UTF-8.
pub fn is_utf8(s: &[u8]) -> bool
    ensures { result ≡ well_formed s.now }
{
    let front = past_front(s);
    if front < s.len() {
        return walk_from(s, front);
    }
    true
}

// Whether the two checks answer the same. They do, whatever the bytes.
pub fn checks_agree(s: &[u8]) -> bool
    ensures { result ≡ true }
{
    is_utf8(s) == is_utf8_bytewise(s)
}
