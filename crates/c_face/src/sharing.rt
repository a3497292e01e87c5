// What c_cards and c_recordings share with this crate: the bytes of a sender, of a board and of ranks, read and written. Any length may come.
ghost use Rattle.std.specs.Prelude.{◌≡◌};
ghost use Rattle.c_face.specs.Boards.{board_bytes, board_bytes_of, ranks_bytes, ranks_bytes_of};
ghost use Rattle.c_face.specs.Keeping.{bytes_of, sender_of, state_bytes};
ghost use Rattle.c_face.specs.Sharing.{board_at, bytes_put, has_room, if_sized, or_zeros};

use crate::boards::{BOARD_BYTES, RANKS_BYTES};
use crate::keeping::SENDER_BYTES;
use crate::{boards, keeping};
use sender::{Board, Ranks, Sender};

pub fn sender_of(state: &[u8]) -> Sender
    ensures { result ≡ sender_of (or_zeros state_bytes state.now) }
{
    if state.len() != SENDER_BYTES {
        let zeros = [0; 397];
        return keeping::sender_of(&zeros);
    }
    keeping::sender_of(state)
}

pub fn put_sender(sender: Sender, state: &mut [u8])
    ensures { state.new ≡ if_sized state_bytes (bytes_of sender) state.old }
{
    if state.len() == SENDER_BYTES {
        keeping::put_sender(sender, state);
    }
}

pub fn put_board(board: Board, out: &mut [u8])
    ensures { out.new ≡ if_sized board_bytes (board_bytes_of board) out.old }
{
    if out.len() == BOARD_BYTES {
        boards::put_board(board, out);
    }
}

pub fn put_ranks(ranks: Ranks, out: &mut [u8])
    ensures { out.new ≡ if_sized ranks_bytes (ranks_bytes_of ranks) out.old }
{
    if out.len() == RANKS_BYTES {
        boards::put_ranks(ranks, out);
    }
}

// A board whose rows begin at a place.
pub fn board_in(bytes: &[u8], at: usize, count: u8, wait: u8) -> Board
    ensures { result ≡ board_at bytes.now at count wait }
{
    if has_room(bytes, at, 128) {
        return keeping::board_in(bytes, at, count, wait);
    }
    let zeros = [0; 128];
    keeping::board_in(&zeros, 0, count, wait)
}

pub fn put_bytes(from: &[u8], at: usize, out: &mut [u8])
    ensures { out.new ≡ bytes_put from.now at out.old }
{
    if has_room(out, at, from.len()) {
        keeping::put_bytes(from, at, out);
    }
}

// Asked so that no sum is too large for a number.
fn has_room(bytes: &[u8], at: usize, count: usize) -> bool
    ensures { result ≡ has_room at count bytes.now }
{
    if bytes.len() < count {
        return false;
    }
    at <= bytes.len() - count
}
