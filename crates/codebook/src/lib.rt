// The codebook of one message, in 256 lent words, all zero when the message begins. It is laid out anew for each message, and small ones are
// read in less time than more words take.
#![tactic(auto)]

ghost use Rattle.std.specs.Prelude.{◌≡◌, ◌≤◌, ◌<◌, length};
ghost use Rattle.draft.specs.Codebook.{recorded};
ghost use Rattle.codebook.specs.Words.{entry, book_of};

use draft::{Entry, Span};

// Record the text of n bytes at offset o.
pub fn record(book: &mut [u32], position: u8, o: u32, n: u32)
    requires { (1 < o) × (o ≤ 65536) × (n < 65536) × (length book.old ≡ 256) }
    ensures { book_of book.new ≡ recorded (book_of book.old) position o n }
{
    let p = usize::from(position);
    book[p] = (o - 1) * 65536 + n;
}

// What is recorded at a position.
pub fn recall(book: &[u32], position: u8) -> Entry
    requires { length book.now ≡ 256 }
    ensures { result ≡ book_of book.now position }
{
    let p = usize::from(position);
    entry_of(book[p])
}

// What a word holds.
fn entry_of(word: u32) -> Entry
    ensures { result ≡ entry word }
{
    if word == 0 {
        return None;
    }
    Some(Span {
        offset: word / 65536 + 1,
        length: word % 65536,
    })
}
