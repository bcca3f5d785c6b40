// Which keys of a Struct come again. The keys of all Structs of a message are noted in one lent slice of words, at their rows and with the
// Struct that owns them, and are chained in buckets: a key is compared with the few keys of its Struct that are in its bucket.
// Nothing is taken out: keys of Structs that are done stay where they are, and are passed over. See specs/Notes.antt for the words.
#![tactic(auto)]

ghost use Rattle.std.specs.Prelude.{◌≡◌, ◌&&◌, ◌+◌, ◌*◌, ◌<◌, ◌/◌, length, eqb, ltb};
ghost use Rattle.text.specs.Texts.{same, among};
ghost use Rattle.keys.specs.Notes.{head_of, owner_of, named, keys_of, joined, Noted, Rows, Entry, Placed, Noting, Ahead};

// The text that a row names.
fn text_of<'a>(s: &'a [u8], table: &[u32], room: usize, row: usize) -> &'a [u8]
    requires { Rows row room (length table.now) }
    ensures { result.now ≡ named s.now room table.now row }
{
    let x = table::get_row(table, room, row);
    content::part(s, x.a as usize, x.b as usize)
}

// Whether row k is the owner's, and has the key's bytes.
fn is_key(
    s: &[u8],
    table: &[u32],
    room: usize,
    notes: &[u16],
    owner: usize,
    k: usize,
    key: &[u8],
) -> bool
    requires { Rows k room (length table.now) × (k < length notes.now / 3) }
    ensures { result ≡ (eqb (owner_of notes.now k) owner && same key.now (named s.now room table.now k)) }
{
    notes[k * 3 + 2] as usize == owner && names::equal(key, text_of(s, table, room, k))
}

// Whether a key of the owner on the chain from `newest` on has these bytes. The owner's keys have no row before its first.
fn find(
    s: &[u8],
    table: &[u32],
    room: usize,
    notes: &[u16],
    owner: usize,
    row: usize,
    newest: usize,
    key: &[u8],
) -> bool
    requires { Rows row room (length table.now) × Entry owner row (length notes.now) × Ahead (named s.now room table.now) notes.now owner row newest key.now }
    ensures { result ≡ among (keys_of (named s.now room table.now) notes.now owner row) key.now }
{
    let mut c = newest;
    while owner < c {
        let k = c - 1;
        if is_key(s, table, room, notes, owner, k, key) {
            return true;
        }
        c = notes[k * 3 + 1] as usize;
    }
    false
}

// The bucket of the key of a row.
pub fn place(s: &[u8], table: &[u32], room: usize, notes: &[u16], owner: usize, row: usize) -> usize
    requires { Rows row room (length table.now) × Entry owner row (length notes.now) }
    ensures { Placed (named s.now room table.now) (length notes.now) owner row result }
{
    spread::bucket_whole(text_of(s, table, room, row), owner, notes.len() / 3)
}

// Whether a bucket may have keys of the owner: they have no row before its first.
pub fn crowded(notes: &[u16], owner: usize, h: usize) -> bool
    requires { h < length notes.now / 3 }
    ensures { result ≡ ltb owner (head_of notes.now h) }
{
    owner < notes[h * 3] as usize
}

// A new key is put on its bucket's chain.
pub fn join(notes: &mut [u16], owner: usize, row: usize, h: usize)
    requires { Entry owner row (length notes.old) × (h < length notes.old / 3) }
    ensures { notes.new ≡ joined notes.old owner row h }
{
    notes[row * 3 + 1] = notes[h * 3];
    notes[row * 3 + 2] = owner as u16;
    notes[h * 3] = (row + 1) as u16;
}

// Whether the key of a row is among its owner's, all in its bucket; if not, it is noted.
pub fn note_in(
    s: &[u8],
    table: &[u32],
    room: usize,
    notes: &mut [u16],
    owner: usize,
    row: usize,
    h: usize,
) -> bool
    requires { Rows row room (length table.now) × Entry owner row (length notes.old) × Noted (named s.now room table.now) notes.old row × Placed (named s.now room table.now) (length notes.old) owner row h }
    ensures { Noting (named s.now room table.now) notes.old notes.new owner row result }
{
    let newest = notes[h * 3] as usize;
    let key = text_of(s, table, room, row);
    if find(s, table, room, notes, owner, row, newest, key) {
        return true;
    }
    join(notes, owner, row, h);
    false
}

// The same where its bucket isn't known. Where keys are many, ask first whether it is crowded.
pub fn note(
    s: &[u8],
    table: &[u32],
    room: usize,
    notes: &mut [u16],
    owner: usize,
    row: usize,
) -> bool
    requires { Rows row room (length table.now) × Entry owner row (length notes.old) × Noted (named s.now room table.now) notes.old row }
    ensures { Noting (named s.now room table.now) notes.old notes.new owner row result }
{
    let h = place(s, table, room, notes, owner, row);
    note_in(s, table, room, notes, owner, row, h)
}
