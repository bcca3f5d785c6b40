// Job defaults behind a card.
ghost use Rattle.std.specs.Prelude.{◌≡◌};
ghost use Rattle.defaults.specs.Defaults.{source as sourceIn, chosen};
ghost use Rattle.lookup_reports.specs.Numbers.{text_report, text_report_of};

// The text that a card has under a key, or behind it the defaults: the result is 0, or the refusal's number; every number lent is set.
#[unsafe(no_mangle)]
pub extern "C" fn binmode_default_text(
    table: &[u32],
    rows: usize,
    text: &[u8],
    row: usize,
    defaults_table: &[u32],
    defaults_rows: usize,
    defaults_text: &[u8],
    defaults_row: usize,
    key: &[u8],
    source: &mut u8,
    offset: &mut u64,
    size: &mut u64,
) -> u8
    ensures { text_report result source.new offset.new size.new ≡ text_report_of (chosen (sourceIn table.now rows text.now row) (sourceIn defaults_table.now defaults_rows defaults_text.now defaults_row) key.now) }
{
    binmode::job_defaults::binmode_default_text(
        table,
        rows,
        text,
        row,
        defaults_table,
        defaults_rows,
        defaults_text,
        defaults_row,
        key,
        source,
        offset,
        size,
    )
}
