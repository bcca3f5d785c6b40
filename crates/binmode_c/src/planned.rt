// Writing with a plan, and prices that prove it shortest.
ghost use Rattle.std.specs.Prelude.{◌≡◌};
ghost use Rattle.certificate.specs.Certificate.{certified};
ghost use Rattle.binmode.specs.Planned.{WritePlannedReported, answer_number};

// Writes a table with a stated number of rows, whose texts lie in the text bytes, by a plan, and reports documents 01's and 02's numbers: the
// result is 0 for acceptance, or the refusal's number.
#[unsafe(no_mangle)]
pub extern "C" fn binmode_write_planned_within(
    table: &[u32],
    rows: usize,
    text: &[u8],
    plan: &[u8],
    limit: usize,
    output: &mut [u8],
    size: &mut u64,
) -> u8
    ensures { WritePlannedReported limit table.now rows text.now plan.now output.old output.new result size.new }
{
    binmode::planned::binmode_write_planned_within(table, rows, text, plan, limit, output, size)
}

// Whether a plan and prices prove that no message with the table's meaning is shorter than the plan's: 1 for yes; 0 is no statement.
#[unsafe(no_mangle)]
pub extern "C" fn binmode_proves_shortest(
    table: &[u32],
    rows: usize,
    text: &[u8],
    plan: &[u8],
    prices: &[u32],
) -> u8
    ensures { result ≡ answer_number (certified table.now rows text.now plan.now prices.now) }
{
    binmode::planned::binmode_proves_shortest(table, rows, text, plan, prices)
}
