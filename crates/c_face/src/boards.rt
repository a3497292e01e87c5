// The sender's board and ranks for C, each read whole into one lent buffer.
ghost use Rattle.std.specs.Prelude.{◌≡◌, length};
ghost use Rattle.c_face.specs.Boards.{board_bytes, board_bytes_c, board_bytes_of, outgoing_bytes_c, ranks_bytes, ranks_bytes_c, ranks_bytes_of, shown_answer_c};

use crate::keeping;
use crate::keeping::SENDER_BYTES;
use sender::{Board, Ranks};

// A board.
pub const BOARD_BYTES: usize = 130;

// The ranks of an epoch.
pub const RANKS_BYTES: usize = 68;

// A count above 64 stands only in a state that does not come from a start: nobody is to read past the board by it.
pub(crate) fn put_board(board: Board, out: &mut [u8])
    requires { length out.old ≡ board_bytes }
    ensures { out.new ≡ board_bytes_of board }
{
    let head = [ground::size_byte(board.count), u8::from(board.wait)];
    keeping::put_bytes(&head, 0, out);
    keeping::put_pairs(&board.rows, 2, out);
}

pub(crate) fn put_ranks(ranks: Ranks, out: &mut [u8])
    requires { length out.old ≡ ranks_bytes }
    ensures { out.new ≡ ranks_bytes_of ranks }
{
    let head = [ranks.count, u8::from(ranks.begun), ranks.epoch, ranks.x];
    keeping::put_bytes(&head, 0, out);
    keeping::put_bytes(&ranks.ranks, 4, out);
}

pub fn levelspruce_sender_board(state: &[u8], board: &mut [u8]) -> u8
    ensures { (result ≡ shown_answer_c 130 state.now board.old)
        × (board.new ≡ board_bytes_c state.now board.old) }
{
    if state.len() != SENDER_BYTES {
        return 9;
    }
    if board.len() != BOARD_BYTES {
        return 9;
    }
    let sender = keeping::sender_of(state);
    let table = sender.table;
    let shown = sender::board_of(table);
    put_board(shown, board);
    0
}

pub fn levelspruce_sender_board_going(state: &[u8], board: &mut [u8]) -> u8
    ensures { (result ≡ shown_answer_c 130 state.now board.old)
        × (board.new ≡ outgoing_bytes_c state.now board.old) }
{
    if state.len() != SENDER_BYTES {
        return 9;
    }
    if board.len() != BOARD_BYTES {
        return 9;
    }
    let sender = keeping::sender_of(state);
    let outgoing = sender.outgoing;
    put_board(outgoing, board);
    0
}

pub fn levelspruce_sender_ranks(state: &[u8], ranks: &mut [u8]) -> u8
    ensures { (result ≡ shown_answer_c 68 state.now ranks.old)
        × (ranks.new ≡ ranks_bytes_c state.now ranks.old) }
{
    if state.len() != SENDER_BYTES {
        return 9;
    }
    if ranks.len() != RANKS_BYTES {
        return 9;
    }
    let sender = keeping::sender_of(state);
    let told = sender.ranks();
    put_ranks(told, ranks);
    0
}
