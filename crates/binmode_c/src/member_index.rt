// An index of a Struct's members: entries in a list that the caller lends, and keys looked up through one. An entry and a report pass as structs of C.
ghost use Rattle.std.specs.Prelude.{◌≡◌, length};
ghost use Rattle.index.specs.Filling.{Filled};
ghost use Rattle.index_search.specs.Through.{reports_of, judgement};

use lookup_answer::Report;
use member::Member;

// Fills a list with the index of the members of the Struct of a row: an entry for each, in byte order of their keys, unused ones behind them. The
// result is 0, or the refusal's number, and then all entries are unused.
#[unsafe(no_mangle)]
pub extern "C" fn binmode_index_fill<'a, 'b>(
    table: &'a [u32],
    rows: usize,
    text: &'a [u8],
    row: usize,
    list: &'b mut [Member],
) -> u8
    ensures { Filled table.now rows text.now row (length list.old) result list.new }
{
    binmode::member_index::binmode_index_fill(table, rows, text, row, list)
}

// Looks up keys through a list, which may hold anything: a report for each key, as for that many single lookups. The table is judged once. Key i ends
// at `ends[i]` and begins where the one before it ends. The result is 0, or 11 for a table that is not writable.
#[unsafe(no_mangle)]
pub extern "C" fn binmode_index_find<'a, 'b>(
    table: &'a [u32],
    rows: usize,
    text: &'a [u8],
    row: usize,
    list: &'a [Member],
    keys: &'a [u8],
    ends: &'a [u32],
    reports: &'b mut [Report],
) -> u8
    ensures { (result ≡ judgement table.now rows text.now) × (reports.new ≡ reports_of table.now rows text.now row list.now keys.now ends.now (length reports.old)) }
{
    binmode::member_index::binmode_index_find(table, rows, text, row, list, keys, ends, reports)
}
