// The sender's state in lent bytes, read and written. This file alone knows where each field stands.
ghost use Rattle.std.specs.Prelude.{◌≡◌, [], ◌∷◌, ℕ, ◌+◌, ◌/◌, ◌%◌, ◌≤◌, ◌<◌, length, get_or};
ghost use Rattle.ground.specs.Drawn.{fill_at};
ghost use Rattle.c_face.specs.Keeping.{board_in, bytes_of, field_bytes, row_byte, row_in, rows_in, sender_of, slot_byte, slot_in, slots_in, state_bytes, state_of, table_in};

use packet::Word;
use sender::{Board, Row, Sender, Slot, State, Table};
use std::array;

// A sender's state.
pub const SENDER_BYTES: usize = 397;

// No From: State is sender's, and an impl for it may stand in sender alone.
fn state_of(code: u8) -> State
    ensures { result ≡ state_of code }
{
    match code {
        1 => State::Add,
        2 => State::Active,
        3 => State::Dnu,
        _ => State::Idle,
    }
}

fn slot_in(state: &[u8], i: usize) -> Slot
    requires { (length state.now ≡ state_bytes) × (i < 64) }
    ensures { result ≡ slot_in state.now i }
{
    Slot {
        state: state_of(state[2 * i]),
        number: state[2 * i + 1],
    }
}

fn slots_in(state: &[u8]) -> [Slot; 64]
    requires { length state.now ≡ state_bytes }
    ensures { result ≡ slots_in state.now }
{
    array::from_fn(|i| slot_in(state, i))
}

fn row_in(state: &[u8], at: usize, i: usize) -> Row
    requires { (at + 128 ≤ length state.now) × (i < 64) }
    ensures { result ≡ row_in state.now at i }
{
    Row {
        word: Word(state[at + 2 * i]),
        number: state[at + 2 * i + 1],
    }
}

fn rows_in(state: &[u8], at: usize) -> [Row; 64]
    requires { at + 128 ≤ length state.now }
    ensures { result ≡ rows_in state.now at }
{
    array::from_fn(|i| row_in(state, at, i))
}

fn table_in(state: &[u8]) -> Table
    requires { length state.now ≡ state_bytes }
    ensures { result ≡ table_in state.now }
{
    Table {
        slots: slots_in(state),
        count: state[384],
        wait: state[385] != 0,
        remembered: state[386],
        kind: state[387],
    }
}

// A board whose rows begin at a place of any bytes.
pub(crate) fn board_in(state: &[u8], at: usize, count: u8, wait: u8) -> Board
    requires { at + 128 ≤ length state.now }
    ensures { result ≡ board_in state.now at count wait }
{
    Board {
        rows: rows_in(state, at),
        count,
        wait: wait != 0,
    }
}

// Any bytes are a sender.
pub(crate) fn sender_of(state: &[u8]) -> Sender
    requires { length state.now ≡ state_bytes }
    ensures { result ≡ sender_of state.now }
{
    Sender {
        table: table_in(state),
        outgoing: board_in(state, 128, state[388], state[389]),
        ruling: board_in(state, 256, state[390], state[391]),
        epoch: state[392],
        begun: state[393] != 0,
        gid: state[394],
        mst: state[395],
        rs_ack: state[396],
    }
}

pub(crate) fn put_bytes(from: &[u8], at: usize, out: &mut [u8])
    requires { at + length from.now ≤ length out.old }
    ensures { out.new ≡ fill_at at (length from.now) (λ k. get_or from.now k 0) out.old }
{
    out[at..at + from.len()].copy_from_slice(from);
}

// What stands as two bytes, a slot or a row: the byte on each side.
pub(crate) trait Pair: Copy {
    ghost side: { Self → ℕ → ℕ };

    fn pair(self) -> [u8; 2]
        ensures { result ≡ side self 0 ∷ side self 1 ∷ [] };
}

impl Pair for Slot {
    ghost side = { slot_byte };

    fn pair(self) -> [u8; 2] {
        [self.state as u8, self.number]
    }
}

impl Pair for Row {
    ghost side = { row_byte };

    fn pair(self) -> [u8; 2] {
        [self.word.0, self.number]
    }
}

pub(crate) fn put_pairs<T: Pair>(pairs: &[T; 64], at: usize, out: &mut [u8])
    requires { at + 128 ≤ length out.old }
    ensures { (d : T) → out.new ≡ fill_at at 128 (λ k. T.side (get_or pairs.now (k / 2) d) (k % 2)) out.old }
{
    for i in 0..64 {
        let [first, second] = pairs[i].pair();
        out[at + 2 * i] = first;
        out[at + 2 * i + 1] = second;
    }
}

fn field_bytes(sender: &Sender) -> [u8; 13]
    ensures { result ≡ field_bytes sender.now }
{
    [
        sender.table.count,
        u8::from(sender.table.wait),
        sender.table.remembered,
        sender.table.kind,
        sender.outgoing.count,
        u8::from(sender.outgoing.wait),
        sender.ruling.count,
        u8::from(sender.ruling.wait),
        sender.epoch,
        u8::from(sender.begun),
        sender.gid,
        sender.mst,
        sender.rs_ack,
    ]
}

pub(crate) fn put_sender(sender: Sender, state: &mut [u8])
    requires { length state.old ≡ state_bytes }
    ensures { state.new ≡ bytes_of sender }
{
    put_pairs(&sender.table.slots, 0, state);
    put_pairs(&sender.outgoing.rows, 128, state);
    put_pairs(&sender.ruling.rows, 256, state);
    put_bytes(&field_bytes(&sender), 384, state);
}
