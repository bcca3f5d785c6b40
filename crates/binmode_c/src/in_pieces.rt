// Messages in pieces. The state is six words that the caller keeps.
ghost use Rattle.std.specs.Prelude.{◌≡◌, length};
ghost use Rattle.pieces.specs.Runs.{begun};
ghost use Rattle.piece_reports.specs.Words.{words_of};
ghost use Rattle.piece_reports.specs.Reported.{PieceReported, EndReported};

// Sets the state for a message of which nothing has come.
#[unsafe(no_mangle)]
pub extern "C" fn binmode_pieces_start(state: &mut [u64; 6])
    ensures { state.new ≡ words_of begun }
{
    binmode::in_pieces::binmode_pieces_start(state)
}

// Takes the next piece, and reports what stands then: the result is 255 if more is wanted, 0 for acceptance, or the refusal's number.
#[unsafe(no_mangle)]
pub extern "C" fn binmode_pieces_next_within(
    state: &mut [u64; 6],
    piece: &[u8],
    room: &mut [u8],
    table: &mut [u32],
    limit: usize,
) -> u8
    ensures { PieceReported limit state.old piece.now room.old table.old state.new room.new table.new result }
{
    binmode::in_pieces::binmode_pieces_next_within(state, piece, room, table, limit)
}

// Says that no more pieces come, and reports what stands then.
#[unsafe(no_mangle)]
pub extern "C" fn binmode_pieces_end_within(
    state: &mut [u64; 6],
    room: &[u8],
    table: &mut [u32],
    limit: usize,
) -> u8
    ensures { EndReported limit state.old (length room.now) table.old state.new table.new result }
{
    binmode::in_pieces::binmode_pieces_end_within(state, room, table, limit)
}
