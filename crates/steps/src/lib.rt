// A byte's step: from what was due of the character begun to what is due after the byte, as numbers, with no branch. What is due is a state,
// and states are numbered by sixes: then one word has, for a class of bytes, the state after each state, six bits for each.
// Assumes that the table of classes and the words are lent, as `byte_classes` and STEPS have them.
#![tactic(auto)]

ghost use Rattle.std.specs.Prelude.{◌≡◌, ◌+◌, ◌≤◌, length};
ghost use Rattle.text.specs.Classes.{class_table};
ghost use Rattle.steps.specs.States.{State, Step, Stepped, step_table};

use byte_classes::class_in;

// The words of the classes, in their order: a byte by itself, three classes of tails, bytes in no character, and those that begin one.
pub const STEPS: [u64; 12] = [
    1715657000903040,
    5093769241166214,
    1768846078771590,
    1768440204362118,
    1715657000903046,
    1715657000903052,
    1715657000903070,
    1715657000903058,
    1715657000903076,
    1715657000903082,
    1715657000903064,
    1715657000903088,
];

// The state after a byte.
pub fn step(table: &[u8; 256], words: &[u64; 12], state: u64, b: u8) -> u64
    requires { (table.now ≡ class_table) × (words.now ≡ step_table) × State state }
    ensures { Step state b result }
{
    let word = words[class_in(table, b) as usize];
    (word >> state) % 64
}

fn four_steps(table: &[u8; 256], words: &[u64; 12], s: &[u8], at: usize, state: u64) -> u64
    requires { (table.now ≡ class_table) × (words.now ≡ step_table) × State state × (at + 4 ≤ length s.now) }
    ensures { Stepped s.now at state (at + 4) result }
{
    let one = step(table, words, state, s[at]);
    let two = step(table, words, one, s[at + 1]);
    let three = step(table, words, two, s[at + 2]);
    step(table, words, three, s[at + 3])
}

// The state after the eight bytes at `at`.
pub fn eight_steps(table: &[u8; 256], words: &[u64; 12], s: &[u8], at: usize, state: u64) -> u64
    requires { (table.now ≡ class_table) × (words.now ≡ step_table) × State state × (at + 8 ≤ length s.now) }
    ensures { Stepped s.now at state (at + 8) result }
{
    let half = four_steps(table, words, s, at, state);
    four_steps(table, words, s, at + 4, half)
}
