// A board written out (01, 'Session'): a line for each slot, then the wait.
ghost use Rattle.std.specs.Prelude.{◌≡◌, ◌≤◌, length};
ghost use Rattle.session_lines.specs.Output.{ROOM, board_text, slots_text};
ghost use Rattle.session_lines.specs.Shown.{shown_bytes, shown_length};
ghost use Rattle.text.specs.Output.{Put};

use crate::output;
use crate::session::OUTPUT_ROOM;
use sender::{Board, Row, Table};

// The lines of the first n slots.
fn put_slots(rows: [Row; 64], n: u8, out: &mut [u8]) -> usize
    requires { (n ≤ 64) × (ROOM ≤ length out.old) }
    ensures { Put (slots_text rows n) 0 out.old result out.new }
{
    let mut at = 0;
    for i in 0..n {
        let row = rows[i as usize];
        at = output::put_slot(i, row.word, row.number, out, at);
    }
    at
}

pub(crate) fn put_board(board: Board, out: &mut [u8]) -> usize
    requires { (board.count ≤ 64) × (ROOM ≤ length out.old) }
    ensures { Put (board_text board) 0 out.old result out.new }
{
    let next = put_slots(board.rows, board.count, out);
    output::put_wait(board.wait, out, next)
}

// The board of a table at the front of the buffer: how many bytes its lines take, or 0 where the buffer is below OUTPUT_ROOM.
pub fn show(table: Table, out: &mut [u8]) -> usize
    ensures { (result ≡ shown_length table out.old) × (out.new ≡ shown_bytes table out.old) }
{
    if out.len() < OUTPUT_ROOM {
        return 0;
    }
    put_board(sender::board_of(table), out)
}
