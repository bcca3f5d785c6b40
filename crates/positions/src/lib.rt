// The positions of the texts that come again, and how each string is sent. Strings are numbered in row order; of each it is known which is
// the first of its text.
#![tactic(auto)]

ghost use Rattle.std.specs.Prelude.{◌≡◌, ◌≤◌, length};
ghost use Rattle.positions.specs.Contract.{Marked, Numbered, Placed, Ready, SentBy};

// How a string is sent, with its position if it has one.
#[derive(Clone, Copy, PartialEq, Eq)]
pub enum Sending {
    Regular,
    Recorded(u8),
    Recalled(u8),
}

// Marks the first string of each text that comes again: it is how much later a string was that has the text, and 0 if none was. A first
// string is never later than the string itself; to test it is cheaper than to have every caller show it.
fn mark(count: usize, firsts: &[u16], spots: &mut [u16])
    requires { (count ≤ 4096) × (count ≤ length firsts.now) × (count ≤ length spots.old) }
    ensures { Marked count firsts.now spots.new }
{
    for j in 0..count {
        let f = firsts[j] as usize;
        if f <= j {
            spots[f] = (j - f) as u16;
        }
    }
}

// The position of each text that comes again, at its first string, which is marked; 4,096 at the first strings of the others.
fn number(count: usize, firsts: &[u16], spots: &mut [u16])
    requires { (count ≤ 4096) × (count ≤ length firsts.now) × (count ≤ length spots.old) }
    ensures { Numbered count firsts.now spots.old spots.new }
{
    let mut next: u16 = 0;
    for j in 0..count {
        if firsts[j] as usize == j {
            if 0 < spots[j] {
                spots[j] = next;
                next += 1;
            } else {
                spots[j] = 4096;
            }
        }
    }
}

// The position of each text that comes again, at its first string; 4,096 at the first strings of the others.
pub fn place(count: usize, firsts: &[u16], spots: &mut [u16])
    requires { (count ≤ 4096) × (count ≤ length firsts.now) × (count ≤ length spots.old) }
    ensures { Placed count firsts.now spots.new }
{
    mark(count, firsts, spots);
    number(count, firsts, spots);
}

// How string j is sent. A position of 256 or more is none.
#[tactic(auto, using(crate::proofs::Choosing::choosing))]
pub fn sending_of(firsts: &[u16], spots: &[u16], j: usize) -> Sending
    requires { Ready firsts.now spots.now j }
    ensures { SentBy firsts.now spots.now j result }
{
    let f = firsts[j] as usize;
    let p = spots[f];
    if p < 256 {
        if f < j {
            return Sending::Recalled(p as u8);
        }
        return Sending::Recorded(p as u8);
    }
    Sending::Regular
}
