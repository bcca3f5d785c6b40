// One table for two stations: rows below a row number are station four's, the rest of the whole rows five's. Here it is judged whether a row
// number splits a table, and where a station's share of it lies. Programs in C and Rust name a station by the number 4 or 5.
#![tactic(auto, using(crate::proofs::Lent::judging, crate::proofs::Numbered::numbered))]

ghost use Rattle.std.specs.Prelude.{◌≡◌};
ghost use Rattle.shares.specs.Share.{station_of, split_for, share_for};

use std::ops::Range;

#[derive(Clone, Copy, PartialEq, Eq, Debug)]
pub enum Station {
    Four,
    Five,
}

// That a row number gives no shares, which is refusal 22.
#[derive(Clone, Copy, PartialEq, Eq, Debug)]
pub struct NotSplit;

// The papers' number of the refusal.
impl From<NotSplit> for u8 {
    ghost from_gives = { λ _ n. n ≡ 22 };

    fn from(_refusal: NotSplit) -> u8 {
        22
    }
}

// The station of a number: of one that is none's, four.
pub fn station_of(number: u8) -> Station
    ensures { result ≡ station_of number }
{
    if number == 5 {
        Station::Five
    } else {
        Station::Four
    }
}

// The row to split at: for a number that is no station's, 0, which splits no table.
pub fn split_for(number: u8, split: usize) -> usize
    ensures { result ≡ split_for number split }
{
    match number {
        4 | 5 => split,
        _ => 0,
    }
}

// A station's share of a table of so many words, which is split at a row: the words in it.
pub fn share_of(words: usize, split: usize, station: Station) -> Result<Range<usize>, NotSplit>
    ensures { result ≡ share_for words split station }
{
    let rows = words / 4;
    if split == 0 || rows <= split {
        return Err(NotSplit);
    }
    match station {
        Station::Four => Ok(0..split * 4),
        Station::Five => Ok(split * 4..rows * 4),
    }
}
