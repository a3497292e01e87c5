// The changes as lines, for ears and fingertips.
ghost use Rattle.std.specs.Prelude.{◌≡◌, ◌++◌, true, ℕ, ◌+◌, ◌≤◌, ◌<◌, length};
ghost use Rattle.std.specs.Result.{result_unwrap_or};
ghost use Rattle.text.specs.Output.{Put};
ghost use Rattle.spoken.specs.Answers.{told_by, told_length};
ghost use Rattle.spoken.specs.Applying.{change_in};
ghost use Rattle.spoken.specs.Speaking.{SPEECH-ROOM, can_speak, change_lines, change_text, changes_speak, is_shown, row_text, slot_text, speaks_by, speech_bytes, speech_of, spoken_answer, wait_line};

use crate::applying;
use crate::lists::{Change, Changes, Refusal, WaitChange};
use packet::Word;
use sender::Row;

// Room for the lines of any changes.
pub const SPEECH_ROOM: usize = 2188;

// A buffer without room is refused with 9, before what is to be said is looked at.
pub(crate) fn check_room(out: &[u8]) -> Result<(), Refusal>
    ensures { result ≡ told_by (spoken_answer true out.now) tt }
{
    if out.len() < SPEECH_ROOM {
        Err(Refusal::Length)
    } else {
        Ok(())
    }
}

pub(crate) fn is_shown(word: Word) -> bool
    ensures { result ≡ is_shown word }
{
    matches!(
        word,
        Word::ADD | Word::NORM | Word::EOS | Word::DNU | Word::IDLE
    )
}

fn speaks_by(change: Change, rises: bool) -> bool
    ensures { result ≡ speaks_by change rises }
{
    let Change { slot, old, new } = change;
    slot < 64 && rises && old != new && is_shown(old.word) && is_shown(new.word)
}

fn changes_speak(changes: &[Change]) -> bool
    ensures { result ≡ changes_speak changes.now (length changes.now) }
{
    for (k, change) in changes.iter().enumerate() {
        if !speaks_by(*change, applying::rises_at(changes, k)) {
            return false;
        }
    }
    true
}

pub(crate) fn can_speak(changes: &Changes) -> bool
    ensures { result ≡ can_speak changes.now }
{
    changes.count <= 64 && changes_speak(changes.as_slice())
}

pub(crate) fn put_slot(slot: u8, out: &mut [u8], at: usize) -> usize
    requires { at + length (slot_text slot) ≤ length out.old }
    ensures { Put (slot_text slot) at out.old result out.new }
{
    let next = text::put(b"slot\t", out, at);
    text::put_number(slot, b'\t', out, next)
}

pub(crate) fn put_row(label: &[u8], row: Row, mark: u8, out: &mut [u8], at: usize) -> usize
    requires { at + length (label.now ++ row_text row mark) ≤ length out.old }
    ensures { Put (label.now ++ row_text row mark) at out.old result out.new }
{
    let second = text::put(label, out, at);
    let third = text::put_word(row.word, out, second);
    text::put_number(row.number, mark, out, third)
}

pub(crate) fn put_change(change: Change, out: &mut [u8], at: usize) -> usize
    requires { at + length (change_text change) ≤ length out.old }
    ensures { Put (change_text change) at out.old result out.new }
{
    let second = put_slot(change.slot, out, at);
    let third = put_row(b"was\t", change.old, b'\t', out, second);
    put_row(b"now\t", change.new, b'\n', out, third)
}

fn put_changes(changes: &[Change], out: &mut [u8]) -> usize
    requires many { length changes.now ≤ 64 }
    requires slots { (k : ℕ) → k < length changes.now → (change_in changes.now k).slot < 64 }
    requires room { SPEECH-ROOM ≤ length out.old }
    ensures { Put (change_lines changes.now (length changes.now)) 0 out.old result out.new }
{
    let mut at = 0;
    for change in changes {
        at = put_change(*change, out, at);
    }
    at
}

pub(crate) fn put_wait(wait: WaitChange, out: &mut [u8], at: usize) -> usize
    requires { at + length (wait_line wait) ≤ length out.old }
    ensures { Put (wait_line wait) at out.old result out.new }
{
    match wait {
        WaitChange::Same => at,
        WaitChange::Opened => text::put(b"wait\topen\n", out, at),
        WaitChange::Closed => text::put(b"wait\tclosed\n", out, at),
    }
}

// The lines at the front of the buffer: how many bytes they take.
pub fn speak(changes: Changes, out: &mut [u8]) -> Result<usize, Refusal>
    ensures told { (result ≡ told_length (speech_of changes out.old)) × (out.new ≡ speech_bytes changes out.old) }
    ensures left { result_unwrap_or result 0 ≡ (speech_of changes out.old).written }
{
    check_room(out)?;
    if !can_speak(&changes) {
        return Err(Refusal::Unfit);
    }
    let next = put_changes(changes.as_slice(), out);
    Ok(put_wait(changes.wait, out, next))
}
