// c_cards::runs for C.
ghost use Rattle.std.specs.Prelude.{◌≡◌};
ghost use Rattle.c_cards.specs.Runs.{runs_answer_c, runs_bytes_c, runs_written_c, whole_answer_c, whole_bytes_c, whole_written_c};

#[unsafe(no_mangle)]
pub extern "C" fn levelspruce_board_speak_runs(
    changes: &[u8],
    text: &mut [u8],
    written: &mut usize,
) -> u8
    ensures { (result ≡ runs_answer_c changes.now text.old)
        × (text.new ≡ runs_bytes_c changes.now text.old)
        × (written.new ≡ runs_written_c changes.now text.old written.old) }
{
    c_cards::runs::levelspruce_board_speak_runs(changes, text, written)
}

#[unsafe(no_mangle)]
pub extern "C" fn levelspruce_board_speak_whole(
    board: &[u8],
    text: &mut [u8],
    written: &mut usize,
) -> u8
    ensures { (result ≡ whole_answer_c board.now text.old)
        × (text.new ≡ whole_bytes_c board.now text.old)
        × (written.new ≡ whole_written_c board.now text.old written.old) }
{
    c_cards::runs::levelspruce_board_speak_whole(board, text, written)
}
