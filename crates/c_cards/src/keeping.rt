// The bytes of a sender and of a board, for callers that have asked for their length.
ghost use Rattle.std.specs.Prelude.{◌≡◌, ◌+◌, ◌≤◌, length, get_or};
ghost use Rattle.ground.specs.Drawn.{fill_at};
ghost use Rattle.c_face.specs.Keeping.{board_in, bytes_of, sender_of, state_bytes};

use c_face::sharing;
use sender::{Board, Sender};

pub(crate) fn board_in(state: &[u8], at: usize, count: u8, wait: u8) -> Board
    requires { at + 128 ≤ length state.now }
    ensures { result ≡ board_in state.now at count wait }
{
    sharing::board_in(state, at, count, wait)
}

pub(crate) fn sender_of(state: &[u8]) -> Sender
    requires { length state.now ≡ state_bytes }
    ensures { result ≡ sender_of state.now }
{
    sharing::sender_of(state)
}

pub(crate) fn put_bytes(from: &[u8], at: usize, out: &mut [u8])
    requires { at + length from.now ≤ length out.old }
    ensures { out.new ≡ fill_at at (length from.now) (λ k. get_or from.now k 0) out.old }
{
    sharing::put_bytes(from, at, out);
}

// Never inlined: its code would stand in the calls for each group.
#[inline(never)]
pub(crate) fn put_sender(sender: &Sender, state: &mut [u8])
    requires { length state.old ≡ state_bytes }
    ensures { state.new ≡ bytes_of sender.now }
{
    sharing::put_sender(*sender, state);
}
