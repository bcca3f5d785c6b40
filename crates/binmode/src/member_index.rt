// An index of a Struct's members, for programs in C and Rust: entries in a list that the caller lends, and keys looked up through one.
ghost use Rattle.std.specs.Prelude.{◌≡◌, length};
ghost use Rattle.lookup_answer.specs.Reports.{report_of};
ghost use Rattle.index.specs.Filling.{Filled};
ghost use Rattle.index_search.specs.Through.{reports_of, judgement, Rightly, answered};

use index_search::Question;
use lookup_answer::Report;
use member::Member;

// Fills a list with the index of the members of the Struct of a row: an entry for each, in byte order of their keys, unused ones behind them. The
// result is 0, or the refusal's number, and then all entries are unused.
pub fn binmode_index_fill<'a, 'b>(
    table: &'a [u32],
    rows: usize,
    text: &'a [u8],
    row: usize,
    list: &'b mut [Member],
) -> u8
    ensures { Filled table.now rows text.now row (length list.old) result list.new }
{
    let order = index::order_of(table, rows, text, row, list.len());
    let mut i = 0;
    while i < list.len() {
        list[i] = index::entry_in(order, i);
        i += 1;
    }
    order.answer
}

// A key looked up through a list, in a table that was judged before.
fn look_through<'a>(
    table: &'a [u32],
    text: &'a [u8],
    keys: &'a [u8],
    list: &'a [Member],
    question: Question,
) -> Report
    requires { Rightly table.now text.now question }
    ensures { result ≡ report_of (answered table.now text.now list.now keys.now question) }
{
    let mut st = index_search::begin(question, list.len());
    let mut at = st.at;
    while at < list.len() {
        let e = list[at];
        st = index_search::step(table, text, keys, question, st, e);
        at = st.at;
    }
    index_search::report(table, text, question, st)
}

// Looks up keys through a list, which may hold anything: a report for each key, as for that many single lookups. The table is judged once. Key i ends
// at `ends[i]` and begins where the one before it ends. The result is 0, or 11 for a table that is not writable.
pub fn binmode_index_find<'a, 'b>(
    table: &'a [u32],
    rows: usize,
    text: &'a [u8],
    row: usize,
    list: &'a [Member],
    keys: &'a [u8],
    ends: &'a [u32],
    reports: &'b mut [Report],
) -> u8
    ensures { (result ≡ judgement table.now rows text.now) × (reports.new ≡ reports_of table.now rows text.now row list.now keys.now ends.now (length reports.old)) }
{
    let judged = index_search::judge(table, rows, text, row);
    let mut i = 0;
    while i < reports.len() {
        let question = index_search::question_at(judged, ends, i);
        reports[i] = look_through(table, text, keys, list, question);
        i += 1;
    }
    judged.number
}
