// Frames in the lent store: each has its payload, then its H4 byte.
ghost use Rattle.std.specs.Prelude.{◌≡◌};
ghost use Rattle.packet.specs.Symbols.{row_from};
ghost use Rattle.store.specs.Frames.{byte_at, h4_at, packet_in, place_in, ring_of, stored_at};

use packet::{kinds, symbols};
use rows::Group;

// With origin and distance below the window, as a running receiver has them, it takes no division.
fn ring(origin: u16, at: u16, window: u16) -> usize
    ensures { result ≡ ring_of origin at window }
{
    if window == 0 {
        return 0;
    }
    let sum = origin as usize + at as usize;
    if sum < window as usize {
        return sum;
    }
    let over = sum - window as usize;
    if over < window as usize {
        return over;
    }
    over % window as usize
}

// Where a port's frame stands that lies so far after the window's first.
pub fn place(group: Group, port: u8, at: u16) -> usize
    ensures { result ≡ place_in group port at }
{
    let turn = ring(group.origin, at, group.window);
    (port as usize * group.window as usize + turn) * (group.payload as usize + 1)
}

// A frame into the store, from a place on. One that would go beyond the end is dropped.
pub fn put(store: &mut [u8], place: usize, payload: &[u8], h4: u8)
    ensures { store.new ≡ stored_at store.old place payload.now h4 }
{
    let n = payload.len();
    if n < store.len() && place < store.len() - n {
        payload::lay(payload, place, store);
        store[place + n] = h4;
    }
}

fn byte_at(store: &[u8], place: usize) -> u8
    ensures { result ≡ byte_at store.now place }
{
    if place < store.len() { store[place] } else { 0 }
}

fn packet_by(kind: u8, group: Group, port: u8, store: &[u8]) -> [u8; 16]
    ensures { result ≡ row_from kind (λ k. h4_at group port k store.now) }
{
    let frames = kinds::epoch_frames(kind);
    let mut row = [0; 16];
    for k in 0..frames {
        let at = place(group, port, k as u16);
        let h4 = byte_at(store, at + group.payload as usize);
        let entry = symbols::entry_at(kind, k);
        row[entry as usize] = symbols::entry_with(kind, row[entry as usize], k, h4);
    }
    row
}

// The packet that came with the frames of the oldest epoch, out of their H4 bytes. The kind is asked for once, so that the loop knows it.
pub fn packet_in(group: Group, port: u8, store: &[u8]) -> [u8; 16]
    ensures { result ≡ packet_in group port store.now }
{
    if group.kind == kinds::VC12 {
        return packet_by(kinds::VC12, group, port, store);
    }
    packet_by(kinds::H4, group, port, store)
}
