// What a line prints for a listener, put into a lent buffer.
ghost use Rattle.std.specs.Prelude.{◌≡◌, ◌≤◌, length};
ghost use Rattle.session_lines.specs.Session.{over};
ghost use Rattle.session_lines.specs.Told.{is_size};
ghost use Rattle.spoken.specs.Speaking.{SPEECH-ROOM};
ghost use Rattle.text.specs.Output.{put_bytes, put_next};
ghost use Rattle.speak_lines.specs.Lines.{board_lines, cause_text, change_lines, done_text, named_text, numbered_text, refused_text, why_text};

use sender::Table;
use session_lines::Line;
use spoken::Changes;

// Whether it is a size that is accepted.
pub(crate) fn is_size(line: Line) -> bool
    ensures { result ≡ is_size line }
{
    matches!(line, Line::Size(1..=64))
}

fn name_of(line: Line) -> &'static [u8]
    ensures { result.now ≡ named_text line }
{
    match line {
        Line::Size(_) => b"size\t",
        Line::Add(_) => b"add\tslot\t",
        Line::Remove(_) => b"remove\tslot\t",
        Line::Report(_, _, _) => b"report\t",
        Line::Lapse => b"lapse\t",
        Line::Board => b"board\t",
        Line::Malformed => b"",
    }
}

fn put_numbered(line: Line, out: &mut [u8], at: usize) -> usize
    ensures { (result ≡ put_next (numbered_text line) at out.old) × (out.new ≡ put_bytes (numbered_text line) at out.old) }
{
    match line {
        Line::Size(n) | Line::Add(n) | Line::Remove(n) => {
            text::put_decimal(u64::from(n), b'\t', out, at)
        }
        _ => text::put(b"", out, at),
    }
}

fn cause_of(line: Line) -> &'static [u8]
    ensures { result.now ≡ cause_text line }
{
    match line {
        Line::Size(_) => b"not 1 to 64\n",
        Line::Add(_) => b"in use already\n",
        Line::Remove(_) => b"not in use\n",
        Line::Lapse => b"no wait is open\n",
        Line::Malformed => b"malformed\n",
        Line::Report(_, _, _) | Line::Board => b"refused\n",
    }
}

fn why(line: Line, number: u8) -> &'static [u8]
    ensures { result.now ≡ why_text line number }
{
    match number {
        1 => b"no such slot\n",
        3 => b"a wait is open\n",
        _ => cause_of(line),
    }
}

// A refused line: which it was, what it was, and why.
pub(crate) fn put_refused(line: Line, number: u8, place: u64, out: &mut [u8]) -> usize
    requires { SPEECH-ROOM ≤ length out.old }
    ensures { (result ≡ length (refused_text line number place)) × (out.new ≡ over (refused_text line number place) out.old) }
{
    let second = text::put(b"answer\t", out, 0);
    let third = text::put_number(number, b'\t', out, second);
    let fourth = text::put(b"line\t", out, third);
    let fifth = text::put_decimal(place, b'\t', out, fourth);
    let sixth = text::put(name_of(line), out, fifth);
    let seventh = put_numbered(line, out, sixth);
    text::put(why(line, number), out, seventh)
}

// `size 4` for a size that is accepted, and nothing for other lines that are done.
pub(crate) fn put_done(line: Line, count: u8, out: &mut [u8]) -> usize
    requires { SPEECH-ROOM ≤ length out.old }
    ensures { (result ≡ length (done_text line count)) × (out.new ≡ over (done_text line count) out.old) }
{
    if !is_size(line) {
        return 0;
    }
    let next = text::put(b"size\t", out, 0);
    text::put_number(count, b'\n', out, next)
}

// What cannot be said has no line.
pub(crate) fn put_board(runs: bool, table: Table, out: &mut [u8]) -> usize
    requires { SPEECH-ROOM ≤ length out.old }
    ensures { (result ≡ length (board_lines runs table)) × (out.new ≡ over (board_lines runs table) out.old) }
{
    if runs {
        return spoken::speak_whole(sender::board_of(table), out).unwrap_or(0);
    }
    session_lines::show(table, out)
}

pub(crate) fn put_changes(runs: bool, changes: Changes, out: &mut [u8]) -> usize
    requires { SPEECH-ROOM ≤ length out.old }
    ensures { (result ≡ length (change_lines runs changes)) × (out.new ≡ over (change_lines runs changes) out.old) }
{
    if runs {
        return spoken::speak_runs(changes, out).unwrap_or(0);
    }
    spoken::speak(changes, out).unwrap_or(0)
}
