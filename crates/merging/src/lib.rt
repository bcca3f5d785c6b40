// Many rows put in byte order of their texts: those of each half, and then both merged. `sort_front` sorts the first words of a lent slice, and
// uses half as many behind them. n rows take n log n comparisons; where the second half belongs behind the first, one is enough.
#![tactic(auto, using(crate::proofs::Words::waiting, crate::proofs::Words::taking, crate::proofs::Words::merging, crate::proofs::Words::joining, crate::proofs::Words::halving, crate::proofs::Words::front_sorted))]

ghost use Rattle.std.specs.Prelude.{◌≡◌, ◌+◌, ◌*◌, ◌/◌, ◌≤◌, ◌<◌, length, take, drop};
ghost use Rattle.draft.specs.Table.{row_at};
ghost use Rattle.sorting.specs.Sorting.{key_text, sorted};
ghost use Rattle.merging.specs.Merging.{second_first, Runs, Taken, Merged, Joined, Sorted};

// Whether row x is to wait for the row at place j, if that is before place n.
fn waits(
    table: &[u32],
    room: usize,
    text: &[u8],
    x: usize,
    words: &[u32],
    j: usize,
    n: usize,
) -> bool
    requires { (room ≤ 4096) × (room * 4 ≤ length table.now) × (n ≤ length words.now) }
    ensures { result ≡ second_first (key_text room (row_at room table.now) text.now) x words.now j n }
{
    j < n && !sorting::precedes_at(table, room, text, x, words, j)
}

// The next row of two runs put behind those that are merged: the first run's from place z + i, unless it waits for that of the second run at
// place j. Whether it did.
fn take_next(
    table: &[u32],
    room: usize,
    text: &[u8],
    words: &mut [u32],
    half: usize,
    n: usize,
    z: usize,
    i: usize,
    j: usize,
) -> bool
    requires { (room ≤ 4096) × (room * 4 ≤ length table.now) × Runs half n z i j (length words.old) × (i < half) }
    ensures { Taken (key_text room (row_at room table.now) text.now) half n z i j words.old words.new result }
{
    let x = words[z + i];
    let place = i + (j - half);
    if waits(table, room, text, x as usize, words, j, n) {
        words[place] = words[j];
        return true;
    }
    words[place] = x;
    false
}

// Two runs merged: the first lies at place z, the second from place `half` to place n.
fn merge_runs(
    table: &[u32],
    room: usize,
    text: &[u8],
    words: &mut [u32],
    half: usize,
    n: usize,
    z: usize,
)
    requires { (room ≤ 4096) × (room * 4 ≤ length table.now) × Runs half n z 0 half (length words.old) }
    ensures { Merged (key_text room (row_at room table.now) text.now) (take half (drop z words.old)) half n z words.old words.new }
{
    // Stays: at each turn either of two places goes on, and a `for` would count one of them
    let mut i = 0;
    let mut j = half;
    while i < half {
        if take_next(table, room, text, words, half, n, z, i, j) {
            j += 1;
        } else {
            i += 1;
        }
    }
}

// The first n words put in order, if the first `half` of them are in order and the others too. The words from z on are used.
fn join(table: &[u32], room: usize, text: &[u8], words: &mut [u32], half: usize, n: usize, z: usize)
    requires { (room ≤ 4096) × (room * 4 ≤ length table.now) × Runs half n z 0 half (length words.old) × (0 < half) × (half < n) }
    ensures { Joined (key_text room (row_at room table.now) text.now) half n z words.old words.new }
{
    let last = words[half - 1] as usize;
    if sorting::precedes_at(table, room, text, last, words, half) {
        return;
    }
    words.copy_within(..half, z);
    merge_runs(table, room, text, words, half, n, z);
}

// The first n words put in order. The words from z on are used.
fn sort(table: &[u32], room: usize, text: &[u8], words: &mut [u32], n: usize, z: usize)
    requires { (room ≤ 4096) × (room * 4 ≤ length table.now) × (n ≤ z) × (z + n / 2 ≤ length words.old) }
    ensures { Sorted (key_text room (row_at room table.now) text.now) n z words.old words.new }
{
    if n <= 8 {
        sorting::sort_few(table, room, text, &mut words[..n]);
        return;
    }
    let half = n / 2;
    sort(table, room, text, words, half, z);
    sort(table, room, text, &mut words[half..], n - half, z - half);
    join(table, room, text, words, half, n, z);
}

// The first n words put in order; half as many behind them are used.
pub fn sort_front(table: &[u32], room: usize, text: &[u8], words: &mut [u32], n: usize)
    requires { (room ≤ 4096) × (room * 4 ≤ length table.now) × (n + n / 2 ≤ length words.old) }
    ensures { take n words.new ≡ sorted (key_text room (row_at room table.now) text.now) (take n words.old) }
{
    sort(table, room, text, words, n, n);
}
