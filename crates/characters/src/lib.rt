// The character at a place: how many bytes it has, by the class of its first byte and what follows. Assumes that the table of classes
// is lent, as `byte_classes` has it.
#![tactic(auto)]

ghost use Rattle.std.specs.Prelude.{◌≡◌, cond, [], ◌∷◌, ◌<◌, length, drop};
ghost use Rattle.text.specs.Utf8.{begins, width};
ghost use Rattle.text.specs.Classes.{class_table, classes, tails, UpToTails};

use byte_classes::{
    HIGH_TAIL, LEAD_FOUR, LEAD_FOUR_LEAST, LEAD_FOUR_MOST, LEAD_THREE, LEAD_THREE_LEAST,
    LEAD_THREE_SURROGATE, LEAD_TWO, LOW_TAIL, MIDDLE_TAIL, SINGLE, class_in,
};

// Whether a byte of the classes from low to high stands at `at`.
fn one_follows(table: &[u8; 256], s: &[u8], at: usize, low: u8, high: u8) -> bool
    requires { (table.now ≡ class_table) × UpToTails low high }
    ensures { result ≡ begins (classes low high ∷ []) (drop at s.now) }
{
    if at < s.len() {
        let class = class_in(table, s[at]);
        return (low <= class) & (class <= high);
    }
    false
}

// Whether such a byte and a tail stand there.
fn two_follow(table: &[u8; 256], s: &[u8], at: usize, low: u8, high: u8) -> bool
    requires { (table.now ≡ class_table) × UpToTails low high }
    ensures { result ≡ begins (classes low high ∷ tails ∷ []) (drop at s.now) }
{
    if one_follows(table, s, at, low, high) {
        return one_follows(table, s, at + 1, LOW_TAIL, HIGH_TAIL);
    }
    false
}

// Whether such a byte and two tails stand there.
fn three_follow(table: &[u8; 256], s: &[u8], at: usize, low: u8, high: u8) -> bool
    requires { (table.now ≡ class_table) × UpToTails low high }
    ensures { result ≡ begins (classes low high ∷ tails ∷ tails ∷ []) (drop at s.now) }
{
    if one_follows(table, s, at, low, high) {
        return two_follow(table, s, at + 1, LOW_TAIL, HIGH_TAIL);
    }
    false
}

// A character's width, if it is well-formed.
fn width_if(good: bool, n: usize) -> usize
    ensures { result ≡ cond good n 0 }
{
    if good {
        return n;
    }
    0
}

// The width of the character at i, by the class of its first byte; 0 if none is well-formed there.
pub fn width_at(table: &[u8; 256], s: &[u8], i: usize) -> usize
    requires { (table.now ≡ class_table) × (i < length s.now) }
    ensures { result ≡ width (drop i s.now) }
{
    match class_in(table, s[i]) {
        SINGLE => 1,
        LEAD_TWO => width_if(one_follows(table, s, i + 1, LOW_TAIL, HIGH_TAIL), 2),
        LEAD_THREE_LEAST => width_if(two_follow(table, s, i + 1, HIGH_TAIL, HIGH_TAIL), 3),
        LEAD_THREE => width_if(two_follow(table, s, i + 1, LOW_TAIL, HIGH_TAIL), 3),
        LEAD_THREE_SURROGATE => width_if(two_follow(table, s, i + 1, LOW_TAIL, MIDDLE_TAIL), 3),
        LEAD_FOUR_LEAST => width_if(three_follow(table, s, i + 1, MIDDLE_TAIL, HIGH_TAIL), 4),
        LEAD_FOUR => width_if(three_follow(table, s, i + 1, LOW_TAIL, HIGH_TAIL), 4),
        LEAD_FOUR_MOST => width_if(three_follow(table, s, i + 1, LOW_TAIL, LOW_TAIL), 4),
        _ => 0,
    }
}
