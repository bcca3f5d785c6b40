// A search by halves through a list of entries, as a state: which entry to look at next, between which, and what was found. The list itself is with
// the caller, who may have one that is not in order: whatever it holds, a search ends.
#![tactic(auto)]

ghost use Rattle.std.specs.Prelude.{◌≡◌};
ghost use Rattle.seeking.specs.Seeking.{between as betweenOf, ended as endedWith, begun};

// Where a search stands: `at` is the entry to look at, between `low` and `high`, or no entry's number if the search is over; `value` is the row that
// was found, 0 if none.
#[derive(Clone, Copy)]
pub struct Search {
    pub at: usize,
    pub low: usize,
    pub high: usize,
    pub value: u32,
}

// No entry's number.
const OVER: usize = 18446744073709551615;

// A search that goes on between two entries' numbers, the second not included.
pub fn between(low: usize, high: usize) -> Search
    ensures { result ≡ betweenOf low high }
{
    if low < high {
        return Search {
            at: low + (high - low) / 2,
            low,
            high,
            value: 0,
        };
    }
    Search {
        at: OVER,
        low,
        high,
        value: 0,
    }
}

// A search that is over.
pub fn ended(value: u32) -> Search
    ensures { result ≡ endedWith value }
{
    Search {
        at: OVER,
        low: 0,
        high: 0,
        value,
    }
}

// A search through n entries begins; or it is over, if there is nothing to look for.
pub fn begin(wanted: bool, n: usize) -> Search
    ensures { result ≡ begun wanted n }
{
    if wanted {
        return between(0, n);
    }
    ended(0)
}
