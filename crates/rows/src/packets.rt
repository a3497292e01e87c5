// The rows of a port's two packets, the one being gathered and the one that rules, and of its marks.
ghost use Rattle.std.specs.Prelude.{◌≡◌};
ghost use Rattle.rows.specs.Packets.{packets_at, put_packets, marks_at, put_marks, entry_in, with_entry};

use crate::{group, row};

pub fn get(state: &[[u8; 16]], port: u8) -> [[u8; 16]; 2]
    ensures { result ≡ packets_at state.now port }
{
    [
        row::row_in(state, port as usize * group::PORT_ROWS + 3),
        row::row_in(state, port as usize * group::PORT_ROWS + 4),
    ]
}

pub fn put(state: &mut [[u8; 16]], port: u8, packets: [[u8; 16]; 2])
    ensures { state.new ≡ put_packets state.old port packets }
{
    row::put_row(state, port as usize * group::PORT_ROWS + 3, packets[0]);
    row::put_row(state, port as usize * group::PORT_ROWS + 4, packets[1]);
}

pub fn marks(state: &[[u8; 16]], port: u8) -> [u8; 16]
    ensures { result ≡ marks_at state.now port }
{
    row::row_in(state, port as usize * group::PORT_ROWS + 5)
}

pub fn put_marks(state: &mut [[u8; 16]], port: u8, row: [u8; 16])
    ensures { state.new ≡ put_marks state.old port row }
{
    row::put_row(state, port as usize * group::PORT_ROWS + 5, row);
}

// One entry of the packet being gathered.
pub fn entry(state: &[[u8; 16]], port: u8, at: u8) -> u8
    ensures { result ≡ entry_in (packets_at state.now port) at }
{
    let row = row::row_in(state, port as usize * group::PORT_ROWS + 3);
    row::is_whole(row);
    if at < 16 { row[at as usize] } else { 0 }
}

pub fn put_entry(state: &mut [[u8; 16]], port: u8, at: u8, entry: u8)
    ensures { state.new ≡ put_packets state.old port (with_entry (packets_at state.old port) at entry) }
{
    let index = port as usize * group::PORT_ROWS + 3;
    if index < state.len() {
        row::is_whole(state[index]);
        if at < 16 {
            state[index][at as usize] = entry;
        }
    }
}
