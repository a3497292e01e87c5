// A session told to a listener: the input as it comes, in parts cut anywhere, and what each line prints when its end has come.
ghost use Rattle.std.specs.Prelude.{◌≡◌, ◌≤◌, length};
ghost use Rattle.session_lines.specs.Kept.{line_in};
ghost use Rattle.session_lines.specs.Session.{over};
ghost use Rattle.spoken.specs.Speaking.{SPEECH-ROOM};
ghost use Rattle.speak_lines.specs.Lines.{said_of};
ghost use Rattle.speak_lines.specs.Listening.{after_line, beginning, feed_bytes, feed_of, finish_bytes, finish_of, heard_after, is_epoch, kept_in, table_after, text_of, told, with_kept};

use crate::lines;
use packet::kinds;
use sender::{Board, Table};
use session_lines::{Console, Fed, Kept, Line, Refusal};

// The table as the lines so far have left it, the board that she holds, the line that has begun and its number, and whether slots are told in runs.
#[derive(Clone, Copy)]
pub struct Listener {
    pub table: Table,
    pub heard: Board,
    pub kept: Kept,
    pub place: u64,
    pub runs: bool,
}

// Before any size the count is 0.
pub fn begin(runs: bool) -> Listener
    ensures { result ≡ beginning runs }
{
    let table = sender::empty(kinds::H4);
    Listener {
        table,
        heard: sender::board_of(table),
        kept: Kept::nothing(),
        place: 1,
        runs,
    }
}

fn is_epoch(kept: Kept) -> bool
    ensures { result ≡ is_epoch (line_in kept) }
{
    kept.says(b"epoch")
}

fn table_after(table: Table, kept: Kept) -> Table
    ensures { result ≡ table_after table (line_in kept) }
{
    if is_epoch(kept) {
        return table;
    }
    session_lines::reply_to(table, session_lines::line_in(kept)).table
}

// The board that she holds.
fn heard_after(table: Table, heard: Board, kept: Kept) -> Board
    ensures { result ≡ heard_after table heard (line_in kept) }
{
    if is_epoch(kept) {
        return sender::board_of(table);
    }
    let line = session_lines::line_in(kept);
    if lines::is_size(line) {
        return sender::board_of(session_lines::reply_to(table, line).table);
    }
    heard
}

fn after_line(listener: Listener, kept: Kept) -> Listener
    ensures { result ≡ after_line listener (line_in kept) }
{
    Listener {
        table: table_after(listener.table, kept),
        heard: heard_after(listener.table, listener.heard, kept),
        kept: Kept::nothing(),
        // Lines are counted up to a number that no run uses up.
        place: listener.place.saturating_add(1),
        ..listener
    }
}

// What a line of the session prints.
fn put_said(runs: bool, table: Table, line: Line, place: u64, out: &mut [u8]) -> usize
    requires { SPEECH-ROOM ≤ length out.old }
    ensures { (result ≡ length (said_of runs table line place)) × (out.new ≡ over (said_of runs table line place) out.old) }
{
    if session_lines::is_board(line) {
        return lines::put_board(runs, table, out);
    }
    let reply = session_lines::reply_to(table, line);
    if reply.number == 0 {
        return lines::put_done(line, reply.table.count, out);
    }
    lines::put_refused(line, reply.number, place, out)
}

// What a line prints.
fn put_line(listener: Listener, kept: Kept, out: &mut [u8]) -> usize
    requires { SPEECH-ROOM ≤ length out.old }
    ensures { (result ≡ length (text_of listener (line_in kept))) × (out.new ≡ over (text_of listener (line_in kept)) out.old) }
{
    if is_epoch(kept) {
        return match spoken::changes_between(listener.heard, sender::board_of(listener.table)) {
            Ok(changes) => lines::put_changes(listener.runs, changes, out),
            // between boards of different sizes no change is told
            Err(_) => 0,
        };
    }
    let line = session_lines::line_in(kept);
    put_said(listener.runs, listener.table, line, listener.place, out)
}

impl Console for Listener {
    const ROOM: usize = spoken::SPEECH_ROOM;

    ghost ROOM = { 2188 };

    ghost kept_of = { kept_in };

    ghost keeping = { with_kept };

    ghost left_by = { after_line };

    ghost said_by = { text_of };

    fn kept(self) -> Kept {
        self.kept
    }

    fn with_kept(self, kept: Kept) -> Listener {
        Listener { kept, ..self }
    }

    fn answer(self, line: Kept, out: &mut [u8]) -> (Listener, usize) {
        let written = put_line(self, line, out);
        (after_line(self, line), written)
    }
}

// A part of the input, up to its first line end.
pub fn feed(listener: Listener, input: &[u8], out: &mut [u8]) -> Result<Fed<Listener>, Refusal>
    ensures { (result ≡ told (feed_of listener input.now out.old)) × (out.new ≡ feed_bytes listener input.now out.old) }
{
    session_lines::feed_any(listener, input, out)
}

// The end of the input: a line that lacks its end is answered.
pub fn finish(listener: Listener, out: &mut [u8]) -> Result<Fed<Listener>, Refusal>
    ensures { (result ≡ told (finish_of listener out.old)) × (out.new ≡ finish_bytes listener out.old) }
{
    session_lines::finish_any(listener, out)
}
