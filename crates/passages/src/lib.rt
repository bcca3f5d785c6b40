// Whether parts of some bytes are well-formed UTF-8, with notes on what was passed before, so that bytes that many parts share are
// checked once: a part costs at most 518 bytes checked and 256 notes read. See specs/Notes.antt for the notes.
// Assumes an entry for each 256 bytes, and notes that are true.
#![tactic(auto)]

ghost use Rattle.std.specs.Prelude.{◌≡◌, ◌+◌, ◌*◌, ◌%◌, ◌≤◌, ◌<◌, length};
ghost use Rattle.text.specs.Utf8.{well_formed};
ghost use Rattle.passages.specs.Notes.{noted as notedBy, Notes, Passed, Judged};

// Whether the bytes are well-formed.
fn is_utf8(s: &[u8]) -> bool
    ensures { result ≡ well_formed s.now }
{
    text_check::walk_from(s, 0)
}

// How many bytes from `here` on are noted as well-formed.
fn noted(notes: &[u16], here: usize) -> usize
    requires { here < length notes.now * 256 }
    ensures { result ≡ notedBy notes.now here }
{
    let entry = usize::from(notes[here / 256]);
    if entry % 4 == here % 256 {
        return entry / 4;
    }
    0
}

// Whether a byte continues no character.
fn is_first(byte: u8) -> bool {
    byte < 128 || 192 <= byte
}

// The first place from `at` on where a character may begin; three further at most.
fn first_from(s: &[u8], at: usize) -> usize
    requires { at + 3 ≤ length s.now }
    ensures { (at ≤ result) × (result ≤ at + 3) }
{
    for k in at..at + 3 {
        if is_first(s[k]) {
            return k;
        }
    }
    at + 3
}

// The bytes from `here` up to the first character of the next 256, checked, and noted if they begin at one of the four first places of
// theirs. Answers with where they end, or `here` if they are not well-formed.
fn check(s: &[u8], notes: &mut [u16], here: usize) -> usize
    requires { (here + 259 ≤ length s.now) × Notes s.now notes.old }
    ensures { Passed s.now notes.new here result }
{
    let block = here / 256;
    let next = first_from(s, block * 256 + 256);
    if !is_utf8(&s[here..next]) {
        return here;
    }
    let place = here % 256;
    if place < 4 {
        notes[block] = (place + 4 * (next - here)) as u16;
    }
    next
}

// The bytes from `here` on that are noted, or else checked. Answers with where they end, or `here` if they are not well-formed.
fn pass(s: &[u8], notes: &mut [u16], here: usize) -> usize
    requires { (here + 259 ≤ length s.now) × Notes s.now notes.old }
    ensures { Passed s.now notes.new here result }
{
    let n = noted(notes, here);
    if 0 < n {
        return here + n;
    }
    check(s, notes, here)
}

// Stays: a turn passes as many bytes as are noted or checked, so no iterator over the bytes fits.
// Whether the bytes from `from` up to `to` are well-formed. Where some of them are not, all that are left are checked, once.
pub fn is_passage(s: &[u8], from: usize, to: usize, notes: &mut [u16]) -> bool
    requires { (from ≤ to) × (to ≤ length s.now) × Notes s.now notes.old }
    ensures { Judged s.now notes.new from to result }
{
    let mut here = from;
    while 259 <= to - here {
        let next = pass(s, notes, here);
        if next == here {
            return is_utf8(&s[here..to]);
        }
        here = next;
    }
    is_utf8(&s[here..to])
}
