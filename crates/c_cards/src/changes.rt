// The spoken board for C: boards compared, changes applied and spoken, each lent whole as bytes.
ghost use Rattle.std.specs.Prelude.{◌≡◌, ◌+◌, ◌*◌, ◌<◌, length};
ghost use Rattle.ground.specs.Drawn.{fill_at};
ghost use Rattle.spoken.specs.Shown.{wait_code};
ghost use Rattle.c_face.specs.Boards.{board_bytes};
ghost use Rattle.c_cards.specs.Changes.{applied_answer_c, applied_bytes_c, board_from, change_bytes, change_from, changes_bytes, changes_bytes_of, changes_from, compared_answer_c, compared_bytes_c, list_byte, list_from, spoken_answer_c, spoken_bytes_c, wait_from, written_c};

use crate::{boards, keeping};
use c_face::boards::BOARD_BYTES;
use ground::Refusal;
use packet::Word;
use sender::{Board, Row};
use spoken::{Change, Changes, WaitChange};

// The changes between two boards.
pub(crate) const CHANGES_BYTES: usize = 322;

pub(crate) fn board_from(bytes: &[u8]) -> Board
    requires { length bytes.now ≡ board_bytes }
    ensures { result ≡ board_from bytes.now }
{
    let count = bytes[0];
    let wait = bytes[1];
    keeping::board_in(bytes, 2, count, wait)
}

fn wait_from(byte: u8) -> WaitChange
    ensures { result ≡ wait_from byte }
{
    match byte {
        1 => WaitChange::Opened,
        2 => WaitChange::Closed,
        _ => WaitChange::Same,
    }
}

fn wait_code(wait: WaitChange) -> u8
    ensures { result ≡ wait_code wait }
{
    match wait {
        WaitChange::Same => 0,
        WaitChange::Opened => 1,
        WaitChange::Closed => 2,
    }
}

fn change_from(bytes: &[u8], i: usize) -> Change
    requires { (length bytes.now ≡ changes_bytes) × (i < 64) }
    ensures { result ≡ change_from bytes.now i }
{
    let slot = bytes[2 + 5 * i];
    let old_word = bytes[2 + 5 * i + 1];
    let old_number = bytes[2 + 5 * i + 1 + 1];
    let new_word = bytes[2 + 5 * i + 3];
    let new_number = bytes[2 + 5 * i + 3 + 1];
    Change {
        slot,
        old: Row {
            word: Word(old_word),
            number: old_number,
        },
        new: Row {
            word: Word(new_word),
            number: new_number,
        },
    }
}

fn list_from(bytes: &[u8]) -> [Change; 64]
    requires { length bytes.now ≡ changes_bytes }
    ensures { result ≡ list_from bytes.now }
{
    let blank = change_from(bytes, 0);
    let mut list = [blank; 64];
    let mut i = 0;
    while i < 64 {
        let change = change_from(bytes, i);
        list[i] = change;
        i += 1;
    }
    list
}

pub(crate) fn changes_from(bytes: &[u8]) -> Changes
    requires { length bytes.now ≡ changes_bytes }
    ensures { result ≡ changes_from bytes.now }
{
    let count = bytes[0];
    let wait = bytes[1];
    Changes {
        list: list_from(bytes),
        count,
        wait: wait_from(wait),
    }
}

fn change_bytes(change: Change) -> [u8; 5]
    ensures { result ≡ change_bytes change }
{
    let old = change.old;
    let new = change.new;
    let old_word = old.word;
    let new_word = new.word;
    [change.slot, old_word.0, old.number, new_word.0, new.number]
}

fn put_list(list: [Change; 64], out: &mut [u8])
    requires { length out.old ≡ changes_bytes }
    ensures { out.new ≡ fill_at 2 320 (list_byte list) out.old }
{
    let mut i = 0;
    while i < 64 {
        let change = list[i];
        let five = change_bytes(change);
        keeping::put_bytes(&five, 2 + 5 * i, out);
        i += 1;
    }
}

pub(crate) fn put_changes(changes: Changes, out: &mut [u8])
    requires { length out.old ≡ changes_bytes }
    ensures { out.new ≡ changes_bytes_of changes }
{
    let wait = changes.wait;
    let head = [changes.count, wait_code(wait)];
    let list = changes.list;
    keeping::put_bytes(&head, 0, out);
    put_list(list, out);
}

pub fn levelspruce_board_changes(before: &[u8], after: &[u8], changes: &mut [u8]) -> u8
    ensures { (result ≡ compared_answer_c before.now after.now changes.old)
        × (changes.new ≡ compared_bytes_c before.now after.now changes.old) }
{
    if before.len() != BOARD_BYTES {
        return 9;
    }
    if after.len() != BOARD_BYTES {
        return 9;
    }
    if changes.len() != CHANGES_BYTES {
        return 9;
    }
    let old = board_from(before);
    let new = board_from(after);
    match spoken::changes_between(old, new) {
        Ok(told) => {
            put_changes(told, changes);
            0
        }
        Err(refusal) => refusal.number(),
    }
}

pub fn levelspruce_board_apply(board: &mut [u8], changes: &[u8]) -> u8
    ensures { (result ≡ applied_answer_c board.old changes.now)
        × (board.new ≡ applied_bytes_c board.old changes.now) }
{
    if board.len() != BOARD_BYTES {
        return 9;
    }
    if changes.len() != CHANGES_BYTES {
        return 9;
    }
    if changes[1] >= 3 {
        return 2;
    }
    let old = board_from(board);
    let told = changes_from(changes);
    match spoken::apply(old, told) {
        Ok(left) => {
            boards::put_board(left, board);
            0
        }
        Err(refusal) => refusal.number(),
    }
}

pub fn levelspruce_board_speak(changes: &[u8], text: &mut [u8], written: &mut usize) -> u8
    ensures { (result ≡ spoken_answer_c changes.now text.old)
        × (text.new ≡ spoken_bytes_c changes.now text.old)
        × (written.new ≡ written_c changes.now text.old written.old) }
{
    if changes.len() != CHANGES_BYTES {
        return 9;
    }
    if text.len() < spoken::SPEECH_ROOM {
        return 9;
    }
    if changes[1] >= 3 {
        return 2;
    }
    let told = changes_from(changes);
    match spoken::speak(told, text) {
        Ok(length) => {
            *written = length;
            0
        }
        Err(refusal) => refusal.number(),
    }
}
