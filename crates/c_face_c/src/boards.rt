// c_face::boards for C.
ghost use Rattle.std.specs.Prelude.{◌≡◌};
ghost use Rattle.c_face.specs.Boards.{board_bytes_c, outgoing_bytes_c, ranks_bytes_c, shown_answer_c};

#[unsafe(no_mangle)]
pub extern "C" fn levelspruce_sender_board(state: &[u8], board: &mut [u8]) -> u8
    ensures { (result ≡ shown_answer_c 130 state.now board.old)
        × (board.new ≡ board_bytes_c state.now board.old) }
{
    c_face::boards::levelspruce_sender_board(state, board)
}

#[unsafe(no_mangle)]
pub extern "C" fn levelspruce_sender_board_going(state: &[u8], board: &mut [u8]) -> u8
    ensures { (result ≡ shown_answer_c 130 state.now board.old)
        × (board.new ≡ outgoing_bytes_c state.now board.old) }
{
    c_face::boards::levelspruce_sender_board_going(state, board)
}

#[unsafe(no_mangle)]
pub extern "C" fn levelspruce_sender_ranks(state: &[u8], ranks: &mut [u8]) -> u8
    ensures { (result ≡ shown_answer_c 68 state.now ranks.old)
        × (ranks.new ≡ ranks_bytes_c state.now ranks.old) }
{
    c_face::boards::levelspruce_sender_ranks(state, ranks)
}
