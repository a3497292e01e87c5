// The board: the word and number of each slot and the wait, from one table, whole.
ghost use Rattle.std.specs.Prelude.{◌≡◌, ◌≤◌, ◌<◌, ◌&&◌, ℕ, not, if◌then◌else◌};
ghost use Rattle.std.specs.List.{list_any};
ghost use Rattle.ground.specs.Plain.{◌<?◌};
ghost use Rattle.sender.specs.Table.{is_active};
ghost use Rattle.sender.specs.Board.{board_of, highest, no_row, row_of, rows_of, word_of};

use crate::table;
use crate::table::{Slot, State, Table};
use packet::{Word, kinds};

#[derive(Clone, Copy, PartialEq, Eq)]
pub struct Row {
    pub word: Word,
    pub number: u8,
}

#[derive(Clone, Copy)]
pub struct Board {
    pub rows: [Row; 64],
    pub count: u8,
    pub wait: bool,
}

fn higher_of(top: u8, slot: Slot) -> u8
    ensures { result ≡ (if is_active slot.state && top <? slot.number then slot.number else top) }
{
    if table::is_active(slot.state) & (top < slot.number) {
        slot.number
    } else {
        top
    }
}

// The highest number of an active slot, 0 where none is active: one walk, where a walk for each row would take 64.
fn top_of(slots: &[Slot]) -> u8
    ensures { (number : ℕ) → list_any (λ s. is_active s.state && number <? s.number) slots.now ≡ (number <? result) }
{
    let mut top = 0;
    for slot in slots {
        top = higher_of(top, *slot);
    }
    top
}

fn word_of(state: State, last: bool) -> Word
    ensures { result ≡ word_of state last }
{
    match state {
        State::Idle => Word::IDLE,
        State::Add => Word::ADD,
        State::Active => if last { Word::EOS } else { Word::NORM },
        State::Dnu => Word::DNU,
    }
}

fn row_of(slots: [Slot; 64], n: usize, top: u8, i: usize) -> Row
    requires { (n ≤ 64) × (i < 64) × ((number : ℕ) → not (number <? top) ≡ highest slots n number) }
    ensures { result ≡ row_of slots n i }
{
    let slot = slots[i];
    let last = !(slot.number < top);
    Row {
        word: word_of(slot.state, last),
        number: slot.number,
    }
}

fn no_row(kind: u8) -> Row
    ensures { result ≡ no_row kind }
{
    Row {
        word: Word::IDLE,
        number: kinds::idle_number(kind),
    }
}

fn rows_of(slots: [Slot; 64], n: usize, kind: u8) -> [Row; 64]
    requires { n ≤ 64 }
    ensures { result ≡ rows_of slots n kind }
{
    let top = top_of(&slots[..n]);
    let mut rows = [no_row(kind); 64];
    for i in 0..n {
        rows[i] = row_of(slots, n, top, i);
    }
    rows
}

pub fn board_of(table: Table) -> Board
    ensures { result ≡ board_of table }
{
    let n = table::size(table.count);
    Board {
        rows: rows_of(table.slots, n, table.kind),
        count: n as u8,
        wait: table.wait,
    }
}
