// Byte order of texts: byte by byte, and where one text begins the other, the shorter first. Eight bytes are compared as one number.
#![tactic(auto)]

ghost use Rattle.std.specs.Prelude.{◌≡◌, ◌+◌, ◌≤◌, length};
ghost use Rattle.order.specs.ByteOrder.{compared};
ghost use Rattle.order.specs.Alike.{Least, Alike, Ranked};

use std::cmp::Ordering;

// The number of the eight bytes at `at`, the highest first: the lesser number is that of the bytes which come first. Compiled, it is one load.
fn rank_at(s: &[u8], at: usize) -> u64
    requires { at + 8 ≤ length s.now }
    ensures { Ranked s.now at result }
{
    u64::from_be_bytes([
        s[at],
        s[at + 1],
        s[at + 2],
        s[at + 3],
        s[at + 4],
        s[at + 5],
        s[at + 6],
        s[at + 7],
    ])
}

// Texts of which one begins the other: by their lengths.
fn compare_lengths(a: &[u8], b: &[u8], least: usize) -> Ordering
    requires { Least a.now b.now least × Alike a.now b.now least }
    ensures { result ≡ compared a.now b.now }
{
    a.len().cmp(&b.len())
}

// Stays: `a.cmp(b)` took 2.5 s where this took 1.7 s, for a hundred million pairs of 8 to 15 bytes.
// Texts that both have eight bytes or more. Where fewer than eight are left of the shorter, its last eight are compared again with those
// that stand beside them.
fn compare_long(a: &[u8], b: &[u8], least: usize) -> Ordering
    requires { Least a.now b.now least × (8 ≤ least) }
    ensures { result ≡ compared a.now b.now }
{
    let last = least - 8;
    let mut k = 0;
    while k < last {
        let x = rank_at(a, k);
        let y = rank_at(b, k);
        if x != y {
            return x.cmp(&y);
        }
        k += 8;
    }
    let x = rank_at(a, last);
    let y = rank_at(b, last);
    if x != y {
        return x.cmp(&y);
    }
    compare_lengths(a, b, least)
}

// Texts of which one has few bytes.
fn compare_short(a: &[u8], b: &[u8], least: usize) -> Ordering
    requires { Least a.now b.now least }
    ensures { result ≡ compared a.now b.now }
{
    for k in 0..least {
        if a[k] != b[k] {
            return a[k].cmp(&b[k]);
        }
    }
    compare_lengths(a, b, least)
}

// How the first text stands to the second.
pub fn compare(a: &[u8], b: &[u8]) -> Ordering
    ensures { result ≡ compared a.now b.now }
{
    let least = a.len().min(b.len());
    if least < 8 {
        return compare_short(a, b, least);
    }
    compare_long(a, b, least)
}
