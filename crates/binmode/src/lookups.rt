// Looking up members, and positions, for programs in C and Rust.
ghost use Rattle.std.specs.Prelude.{◌≡◌};
ghost use Rattle.lookup_answer.specs.Answers.{lookup as lookupIn};
ghost use Rattle.lookup_answer.specs.Reports.{reported, report_of};
ghost use Rattle.placing.specs.Placing.{at, position as positionIn};
ghost use Rattle.lookup_reports.specs.Numbers.{PositionReported};

// Looks up a member of the Struct of a row, and reports document 02's numbers: the result is 0, or the refusal's number; every number lent is set.
pub fn binmode_lookup(
    table: &[u32],
    rows: usize,
    text: &[u8],
    row: usize,
    key: &[u8],
    sort: &mut u8,
    number: &mut i64,
    decimal: &mut f64,
    offset: &mut u64,
    size: &mut u64,
) -> u8
    ensures { reported result sort.new number.new decimal.new offset.new size.new ≡ report_of (lookupIn table.now rows text.now row key.now) }
{
    let report = lookup_answer::report_of(lookup::lookup(table, rows, text, row, key));
    lookup_reports::member(report, sort, number, decimal, offset, size)
}

// The position in the Struct of a row: the result is 0, or the refusal's number and three plus zeros.
pub fn binmode_position(
    table: &[u32],
    rows: usize,
    text: &[u8],
    row: usize,
    x: &mut f64,
    y: &mut f64,
    turn: &mut f64,
) -> u8
    ensures { PositionReported (positionIn table.now rows text.now row) result (at x.new y.new turn.new) }
{
    lookup_reports::position(position::position_of(table, rows, text, row), x, y, turn)
}
