// Eight bytes looked at as one number, to see whether all are below 128. Assumes that eight bytes stand there.
#![tactic(auto)]

ghost use Rattle.std.specs.Prelude.{◌≡◌, ◌+◌, ◌≤◌, length, take, drop};
ghost use Rattle.text.specs.Texts.{ascii};
ghost use Rattle.text.specs.Runs.{number};

// The highest bit of each of eight bytes.
const HIGH_BITS: u64 = 0x8080_8080_8080_8080;

// The number of the eight bytes at `at`, the lowest first. Compiled, it is one load.
pub fn word_at(s: &[u8], at: usize) -> u64
    requires { at + 8 ≤ length s.now }
    ensures { result ≡ number (take 8 (drop at s.now)) }
{
    u64::from_le_bytes([
        s[at],
        s[at + 1],
        s[at + 2],
        s[at + 3],
        s[at + 4],
        s[at + 5],
        s[at + 6],
        s[at + 7],
    ])
}

// Whether the eight bytes at `at` are below 128.
pub fn eight_below(s: &[u8], at: usize) -> bool
    requires { at + 8 ≤ length s.now }
    ensures { result ≡ ascii (take 8 (drop at s.now)) }
{
    (word_at(s, at) & HIGH_BITS) == 0
}
