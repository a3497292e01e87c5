// A frame's arrival (01, 'The receiver'; 'For frames: 1, 9, 10, 12, 11').
#![tactic(auto, unfolding(crate::specs::Frame::gathered_by, crate::specs::Frame::marks_by, crate::specs::Frame::port_rows, crate::specs::Frame::steady_rows, crate::specs::Frame::store_by, crate::specs::Frame::settled_by, crate::specs::Frame::taken_frame, crate::specs::Frame::refusal_by, crate::specs::Frame::frame_of))]

ghost use Rattle.std.specs.Prelude.{◌≡◌, true};
ghost use Rattle.receiver.specs.Frame.{decided_frame, frame_of, gathered_by, marks_by, port_rows, refusal_by, settled_by, steady_rows, store_by, taken_frame};
ghost use Rattle.phases.specs.Sizes.{ports_in};
ghost use Rattle.rows.specs.Group.{group_at};
ghost use Rattle.rows.specs.Packets.{marks_at, packets_at, put_marks, put_packets};
ghost use Rattle.store.specs.Frames.{place_in, stored_at};

use crate::lengths;
use packet::{kinds, symbols};
use rows::Group;
use step::{Taken, answers};
use store::{frames, marks};

// A frame's symbol into the packet being gathered, at the place of its tag.
fn put_symbol(kind: u8, state: &mut [[u8; 16]], port: u8, tag: u16, h4: u8)
    ensures { state.new ≡ put_packets state.old port (gathered_by kind (packets_at state.old port) true tag h4) }
{
    let place = kinds::place_of(kind, tag);
    let at = symbols::entry_at(kind, place);
    let old = rows::packets::entry(state, port, at);
    rows::packets::put_entry(state, port, at, symbols::entry_with(kind, old, place, h4));
}

// Of a counted frame alone.
fn gather(kind: u8, state: &mut [[u8; 16]], port: u8, counted: bool, tag: u16, h4: u8)
    ensures { state.new ≡ put_packets state.old port (gathered_by kind (packets_at state.old port) counted tag h4) }
{
    if counted {
        put_symbol(kind, state, port, tag, h4);
    }
}

fn marks_by(kind: u8, row: [u8; 16], taken: Taken) -> [u8; 16]
    ensures { result ≡ marks_by kind row taken }
{
    if taken.joins {
        return marks::cut(row, taken.step.joined_at);
    }
    match taken.kept {
        Some(at) if kinds::ends_epoch(kind, at) => marks::mark(row, kinds::epochs_in(kind, at)),
        _ => row,
    }
}

// The marks, written only where they change.
fn mark(kind: u8, state: &mut [[u8; 16]], port: u8, taken: Taken)
    ensures { state.new ≡ put_marks state.old port (marks_by kind (marks_at state.old port) taken) }
{
    if taken.joins || taken.kept.is_some_and(|at| kinds::ends_epoch(kind, at)) {
        let row = rows::packets::marks(state, port);
        rows::packets::put_marks(state, port, marks_by(kind, row, taken));
    }
}

fn put_port(kind: u8, state: &mut [[u8; 16]], port: u8, taken: Taken, h4: u8)
    ensures { state.new ≡ port_rows kind state.old port taken h4 }
{
    let tag = kinds::previous_tag(kind, taken.step.next);
    rows::step::put(state, port, taken.step);
    gather(kind, state, port, taken.counted, tag, h4);
    mark(kind, state, port, taken);
}

// A frame that lies so far after the window's first, into the store.
fn keep(group: Group, port: u8, at: u16, h4: u8, payload: &[u8], store: &mut [u8])
    ensures { store.new ≡ stored_at store.old (place_in group port at) payload.now h4 }
{
    let place = frames::place(group, port, at);
    frames::put(store, place, payload, h4);
}

fn put_frame(group: Group, port: u8, taken: Taken, h4: u8, payload: &[u8], store: &mut [u8])
    ensures { store.new ≡ store_by group port taken h4 payload.now store.old }
{
    if let Some(at) = taken.kept {
        keep(group, port, at, h4, payload, store);
    }
}

// The ports are counted where something follows for them, which few frames bring.
fn settle_by(settles: bool, group: Group, store: &[u8], state: &mut [[u8; 16]])
    ensures { state.new ≡ settled_by settles (ports_in group) store.now state.old }
{
    if settles {
        phases::settle(phases::ports_in(group), store, state);
    }
}

// A frame that is neither 1 nor 9.
fn take(
    group: Group,
    state: &mut [[u8; 16]],
    port: u8,
    taken: Taken,
    h4: u8,
    payload: &[u8],
    store: &mut [u8],
)
    ensures { (state.new ≡ (taken_frame group (ports_in group) state.old port taken h4 payload.now store.old).rows)
        × (store.new ≡ (taken_frame group (ports_in group) state.old port taken h4 payload.now store.old).store) }
{
    if taken.answer != answers::OUTSIDE {
        put_port(group.kind, state, port, taken, h4);
        put_frame(group, port, taken, h4, payload, store);
        settle_by(taken.settles, group, store, state);
    }
}

// A frame that is neither 1 nor 9, decided on what stands in the rows.
fn decided(
    state: &mut [[u8; 16]],
    port: u8,
    failed: bool,
    h4: u8,
    payload: &[u8],
    store: &mut [u8],
) -> u8
    ensures { (result ≡ (decided_frame state.old port failed h4 payload.now store.old).answer)
        × (state.new ≡ (decided_frame state.old port failed h4 payload.now store.old).rows)
        × (store.new ≡ (decided_frame state.old port failed h4 payload.now store.old).store) }
{
    let group = rows::group::get(state);
    let step = rows::step::get(state, port);
    let packets = rows::packets::get(state, port);
    let odd = step::is_odd(group.kind, packets[0], step.next, h4);
    let taken = step::decide(group, step, failed, odd, h4);
    take(group, state, port, taken, h4, payload, store);
    taken.answer
}

// The rows after a steady frame in mid-epoch.
fn go_on(kind: u8, next: u16, h4: u8, port: u8, state: &mut [[u8; 16]])
    ensures { state.new ≡ steady_rows kind next h4 port state.old }
{
    rows::step::put_next(state, port, kinds::next_tag(kind, next));
    put_symbol(kind, state, port, next, h4);
}

// A frame that is neither 1 nor 9. The one of H4 that comes most often goes the short way, which touches three bytes of the rows; three calls of
// the long way keep the compiler from joining it to the short one. VC-12 is asked for once, so that the short way knows its clock.
fn arrive(
    group: Group,
    state: &mut [[u8; 16]],
    port: u8,
    failed: bool,
    h4: u8,
    payload: &[u8],
    store: &mut [u8],
) -> u8
    requires { group ≡ group_at state.old }
    ensures { (result ≡ (decided_frame state.old port failed h4 payload.now store.old).answer)
        × (state.new ≡ (decided_frame state.old port failed h4 payload.now store.old).rows)
        × (store.new ≡ (decided_frame state.old port failed h4 payload.now store.old).store) }
{
    if group.kind == kinds::VC12 {
        return decided(state, port, failed, h4, payload, store);
    }
    let step = rows::step::get(state, port);
    if step::is_steady(group, step, failed, h4) {
        let at = step::distance_in(group, step.next);
        if step::is_mid_epoch(group, at) {
            go_on(group.kind, step.next, h4, port, state);
            keep(group, port, at, h4, payload, store);
            return answers::DONE;
        }
        return decided(state, port, failed, h4, payload, store);
    }
    decided(state, port, failed, h4, payload, store)
}

fn refusal(group: Group, ports: u8, port: u32, rows: usize, payload: usize, store: usize) -> u8
    ensures { result ≡ refusal_by group ports port rows payload store }
{
    if ports as u32 <= port {
        return answers::NO_PORT;
    }
    if lengths::is_frame(group, ports, rows, payload, store) {
        return answers::DONE;
    }
    answers::LENGTH
}

// A frame of a port: flagged as failed or not, its H4 byte and its payload.
pub fn frame(
    state: &mut [[u8; 16]],
    port: u32,
    failed: bool,
    h4: u8,
    payload: &[u8],
    store: &mut [u8],
) -> u8
    ensures { (result ≡ (frame_of state.old port failed h4 payload.now store.old).answer)
        × (state.new ≡ (frame_of state.old port failed h4 payload.now store.old).rows)
        × (store.new ≡ (frame_of state.old port failed h4 payload.now store.old).store) }
{
    let group = rows::group::get(state);
    let ports = phases::ports_in(group);
    let refusal = refusal(group, ports, port, state.len(), payload.len(), store.len());
    if refusal != answers::DONE {
        return refusal;
    }
    arrive(group, state, port as u8, failed, h4, payload, store)
}
