// Messages in pieces for programs in C and Rust. The state is six words that the caller keeps: the answer (255 if more is wanted), the rows, the
// bytes used, the place, the bytes held and the bytes wanted.
ghost use Rattle.std.specs.Prelude.{◌≡◌, length};
ghost use Rattle.pieces.specs.Runs.{begun};
ghost use Rattle.piece_reports.specs.Words.{words_of};
ghost use Rattle.piece_reports.specs.Reported.{PieceReported, EndReported};

// Sets the state for a message of which nothing has come.
pub fn binmode_pieces_start(state: &mut [u64; 6])
    ensures { state.new ≡ words_of begun }
{
    piece_reports::keep(pieces::start(), state);
}

// Takes the next piece, and reports what stands then: the result is 255 if more is wanted, 0 for acceptance, or the refusal's number.
pub fn binmode_pieces_next_within(
    state: &mut [u64; 6],
    piece: &[u8],
    room: &mut [u8],
    table: &mut [u32],
    limit: usize,
) -> u8
    ensures { PieceReported limit state.old piece.now room.old table.old state.new room.new table.new result }
{
    let before = piece_reports::state_of(state);
    piece_reports::keep(pieces::next(before, piece, room, table, limit), state)
}

// Says that no more pieces come, and reports what stands then.
pub fn binmode_pieces_end_within(
    state: &mut [u64; 6],
    room: &[u8],
    table: &mut [u32],
    limit: usize,
) -> u8
    ensures { EndReported limit state.old (length room.now) table.old state.new table.new result }
{
    let before = piece_reports::state_of(state);
    piece_reports::keep(pieces::end(before, room, table, limit), state)
}
