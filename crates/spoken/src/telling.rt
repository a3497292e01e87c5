// Runs as lines, of changes and of a board as it stands.
ghost use Rattle.std.specs.Prelude.{◌≡◌, ◌++◌, Bool, true, false, ◌+◌, ◌≤◌, length};
ghost use Rattle.std.specs.Result.{result_unwrap_or};
ghost use Rattle.text.specs.Output.{Put};
ghost use Rattle.spoken.specs.Answers.{told_length};
ghost use Rattle.spoken.specs.Runs.{runs_of};
ghost use Rattle.std.specs.List.{list_all};
ghost use Rattle.spoken.specs.Speaking.{is_shown};
ghost use Rattle.spoken.specs.SpeakingRuns.{is_unnumbered, line_text, many_shown, many_text, numbers_text, one_shown, rows_text, run_lines, runs_speech_bytes, runs_speech_of, slots_speak, slots_text, standing, still_waits, whole_speech_bytes, whole_speech_of};

use crate::lists::{Change, Changes, Refusal};
use crate::runs::Run;
use crate::speaking;
use packet::Word;
use sender::{Board, Row};

// `255`, or `1 to 62`.
fn put_numbers(first: u8, last: u8, mark: u8, out: &mut [u8], at: usize) -> usize
    requires { at + length (numbers_text first last mark) ≤ length out.old }
    ensures { Put (numbers_text first last mark) at out.old result out.new }
{
    if first == last {
        return text::put_number(first, mark, out, at);
    }
    let second = text::put_number(first, b'\t', out, at);
    let third = text::put(b"to\t", out, second);
    text::put_number(last, mark, out, third)
}

fn is_unnumbered(first: Row, last: Row) -> bool
    ensures { result ≡ is_unnumbered first last }
{
    first.word == Word::IDLE && first.number == 255 && last.number == 255
}

fn put_rows(first: Row, last: Row, mark: u8, out: &mut [u8], at: usize) -> usize
    requires { at + length (rows_text first last mark) ≤ length out.old }
    ensures { Put (rows_text first last mark) at out.old result out.new }
{
    if is_unnumbered(first, last) {
        return text::put(&[b'I', b'D', b'L', b'E', mark], out, at);
    }
    let next = text::put_word(first.word, out, at);
    put_numbers(first.number, last.number, mark, out, next)
}

fn put_labelled(label: &[u8], first: Row, last: Row, mark: u8, out: &mut [u8], at: usize) -> usize
    requires { at + length (label.now ++ rows_text first last mark) ≤ length out.old }
    ensures { Put (label.now ++ rows_text first last mark) at out.old result out.new }
{
    let next = text::put(label, out, at);
    put_rows(first, last, mark, out, next)
}

fn put_slots(from: u8, to: u8, out: &mut [u8], at: usize) -> usize
    requires { at + length (slots_text from to) ≤ length out.old }
    ensures { Put (slots_text from to) at out.old result out.new }
{
    let next = text::put(b"slots\t", out, at);
    put_numbers(from, to, b'\t', out, next)
}

// A run of more than one change.
fn put_many(run: Run, out: &mut [u8], at: usize) -> usize
    requires { at + length (many_text run) ≤ length out.old }
    ensures { Put (many_text run) at out.old result out.new }
{
    let Run { first, last } = run;
    let second = put_slots(first.slot, last.slot, out, at);
    let third = put_labelled(b"was\t", first.old, last.old, b'\t', out, second);
    put_labelled(b"now\t", first.new, last.new, b'\n', out, third)
}

// A slot of a board as it stands.
fn put_one_shown(change: Change, out: &mut [u8], at: usize) -> usize
    requires { at + length (one_shown change) ≤ length out.old }
    ensures { Put (one_shown change) at out.old result out.new }
{
    let next = speaking::put_slot(change.slot, out, at);
    speaking::put_row(b"", change.new, b'\n', out, next)
}

fn put_many_shown(run: Run, out: &mut [u8], at: usize) -> usize
    requires { at + length (many_shown run) ≤ length out.old }
    ensures { Put (many_shown run) at out.old result out.new }
{
    let Run { first, last } = run;
    let next = put_slots(first.slot, last.slot, out, at);
    put_rows(first.new, last.new, b'\n', out, next)
}

// What the runs are of: changes, or a board as it stands.
trait Told {
    ghost shown: { Bool };

    // The line of a run.
    fn put_line(run: Run, out: &mut [u8], at: usize) -> usize
        requires { at + length (line_text shown run) ≤ length out.old }
        ensures { Put (line_text shown run) at out.old result out.new };
}

struct Changed;

impl Told for Changed {
    ghost shown = { false };

    fn put_line(run: Run, out: &mut [u8], at: usize) -> usize {
        if run.first.slot == run.last.slot {
            return speaking::put_change(run.first, out, at);
        }
        put_many(run, out, at)
    }
}

struct Standing;

impl Told for Standing {
    ghost shown = { true };

    fn put_line(run: Run, out: &mut [u8], at: usize) -> usize {
        if run.first.slot == run.last.slot {
            return put_one_shown(run.first, out, at);
        }
        put_many_shown(run, out, at)
    }
}

// The runs of changes. The last one is behind no other.
fn put_runs<T: Told>(changes: &[Change], out: &mut [u8]) -> usize
    requires { length (run_lines T.shown (runs_of changes.now)) ≤ length out.old }
    ensures { Put (run_lines T.shown (runs_of changes.now)) 0 out.old result out.new }
{
    let Some((first, rest)) = changes.split_first() else {
        return 0;
    };
    let mut run = Run::single(*first);
    let mut at = 0;
    for next in rest {
        if run.continues(*next) {
            run.last = *next;
        } else {
            at = T::put_line(run, out, at);
            run = Run::single(*next);
        }
    }
    T::put_line(run, out, at)
}

// The lines of the changes in runs, at the front of the buffer: how many bytes they take.
pub fn speak_runs(changes: Changes, out: &mut [u8]) -> Result<usize, Refusal>
    ensures told { (result ≡ told_length (runs_speech_of changes out.old)) × (out.new ≡ runs_speech_bytes changes out.old) }
    ensures left { result_unwrap_or result 0 ≡ (runs_speech_of changes out.old).written }
{
    speaking::check_room(out)?;
    if !speaking::can_speak(&changes) {
        return Err(Refusal::Unfit);
    }
    let next = put_runs::<Changed>(changes.as_slice(), out);
    Ok(speaking::put_wait(changes.wait, out, next))
}

// The rows of a board, each as it was.
fn standing_in(rows: &[Row; 64]) -> [Change; 64]
    ensures { result ≡ standing rows.now }
{
    let mut list = [Change::none(); 64];
    for (i, row) in rows.iter().enumerate() {
        list[i] = Change {
            slot: i as u8,
            old: *row,
            new: *row,
        };
    }
    list
}

fn rows_speak(rows: &[Row]) -> bool
    ensures { result ≡ list_all (λ row. is_shown row.word) rows.now }
{
    rows.iter().all(|row| speaking::is_shown(row.word))
}

// At most 64 slots, whose words can be told.
fn slots_speak(rows: &[Row; 64], count: u8) -> bool
    ensures { result ≡ slots_speak rows.now count }
{
    count <= 64 && rows_speak(&rows[..usize::from(count)])
}

fn put_still(wait: bool, out: &mut [u8], at: usize) -> usize
    requires { at + length (still_waits wait) ≤ length out.old }
    ensures { Put (still_waits wait) at out.old result out.new }
{
    let next = text::put(b"wait\t", out, at);
    text::put_number(u8::from(wait), b'\n', out, next)
}

// A board as it stands, its slots in runs: how many bytes its lines take. 2 where it has more than 64 slots or a word with no name.
pub fn speak_whole(board: Board, out: &mut [u8]) -> Result<usize, Refusal>
    ensures told { (result ≡ told_length (whole_speech_of board out.old)) × (out.new ≡ whole_speech_bytes board out.old) }
    ensures left { result_unwrap_or result 0 ≡ (whole_speech_of board out.old).written }
{
    speaking::check_room(out)?;
    if !slots_speak(&board.rows, board.count) {
        return Err(Refusal::Unfit);
    }
    let list = standing_in(&board.rows);
    let next = put_runs::<Standing>(&list[..usize::from(board.count)], out);
    Ok(put_still(board.wait, out, next))
}
