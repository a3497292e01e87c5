// A session (01, 'Session'): the sender's table, over which the lines of the input are answered.
ghost use Rattle.std.specs.Prelude.{◌≡◌, ◌≤◌, length};
ghost use Rattle.session_lines.specs.Kept.{line_in};
ghost use Rattle.session_lines.specs.Line.{line_of};
ghost use Rattle.session_lines.specs.Output.{ROOM};
ghost use Rattle.session_lines.specs.Replies.{output_of, reply_of};
ghost use Rattle.session_lines.specs.Session.{answered_by, beginning, feed_bytes, feed_of, finish_bytes, finish_of, kept_by, kept_in, over, said_by, told};

use crate::console::{Console, Fed, Refusal};
use crate::kept::Kept;
use crate::line::Line;
use crate::{boards, console, line, output, replies};
use packet::kinds;
use sender::Table;

// The table as the lines so far have left it, and the line that has begun.
#[derive(Clone, Copy)]
pub struct Session {
    pub table: Table,
    pub kept: Kept,
}

// Room for what any one line is answered.
pub const OUTPUT_ROOM: usize = 1095;

// Before any size the count is 0.
pub fn begin() -> Session
    ensures { result ≡ beginning }
{
    Session {
        table: sender::empty(kinds::H4),
        kept: Kept::nothing(),
    }
}

// A line's answer, or the board.
fn put_output(table: Table, line: Line, number: u8, out: &mut [u8]) -> usize
    requires { (ROOM ≤ length out.old) × (number ≡ (reply_of table line).number) }
    ensures { (result ≡ length (output_of table line)) × (out.new ≡ over (output_of table line) out.old) }
{
    if replies::is_board(line) {
        return boards::put_board(sender::board_of(table), out);
    }
    output::put_answer(number, out)
}

pub fn line_in(kept: Kept) -> Line
    ensures { result ≡ line_of (line_in kept) }
{
    let text = kept.as_slice();
    line::read_line(text, 0, text.len())
}

impl Console for Session {
    const ROOM: usize = OUTPUT_ROOM;

    ghost ROOM = { 1095 };

    ghost kept_of = { kept_in };

    ghost keeping = { kept_by };

    ghost left_by = { answered_by };

    ghost said_by = { said_by };

    fn kept(self) -> Kept {
        self.kept
    }

    fn with_kept(self, kept: Kept) -> Session {
        Session { kept, ..self }
    }

    fn answer(self, line: Kept, out: &mut [u8]) -> (Session, usize) {
        let meant = line_in(line);
        let reply = replies::reply_to(self.table, meant);
        let written = put_output(self.table, meant, reply.number, out);
        let left = Session {
            table: reply.table,
            kept: Kept::nothing(),
        };
        (left, written)
    }
}

// A part of the input, up to its first line end, whose line is then answered, or whole, where no line ends in it.
pub fn feed(session: Session, input: &[u8], out: &mut [u8]) -> Result<Fed<Session>, Refusal>
    ensures { (result ≡ told (feed_of session input.now out.old)) × (out.new ≡ feed_bytes session input.now out.old) }
{
    console::feed_any(session, input, out)
}

// The end of the input: a line that lacks its end is answered.
pub fn finish(session: Session, out: &mut [u8]) -> Result<Fed<Session>, Refusal>
    ensures { (result ≡ told (finish_of session out.old)) × (out.new ≡ finish_bytes session out.old) }
{
    console::finish_any(session, out)
}
