// The bytes of a board and of ranks, likewise.
ghost use Rattle.std.specs.Prelude.{◌≡◌, length};
ghost use Rattle.c_face.specs.Boards.{board_bytes, board_bytes_of, ranks_bytes, ranks_bytes_of};

use c_face::sharing;
use sender::{Board, Ranks};

pub(crate) fn put_board(board: Board, out: &mut [u8])
    requires { length out.old ≡ board_bytes }
    ensures { out.new ≡ board_bytes_of board }
{
    sharing::put_board(board, out);
}

pub(crate) fn put_ranks(ranks: Ranks, out: &mut [u8])
    requires { length out.old ≡ ranks_bytes }
    ensures { out.new ≡ ranks_bytes_of ranks }
{
    sharing::put_ranks(ranks, out);
}
