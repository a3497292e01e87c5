// The sixteen group frames of a report, and what the report says (01, 'Report of an epoch', 'Payload order').
#![tactic(auto, unfolding(crate::specs::Report::output_by, crate::specs::Report::report_by))]

ghost use Rattle.std.specs.Prelude.{◌≡◌, ◌+◌, ◌*◌, get_or, if◌then◌else◌, ◌==◌};
ghost use Rattle.judge.specs.Named.{mark_number};
ghost use Rattle.judge.specs.Verdict.{HELD};
ghost use Rattle.receiver.specs.Laws.Rings.{rings_of};
ghost use Rattle.receiver.specs.Report.{frame_into, frames_into, output_by, report_by};

use crate::report::Report;
use judge::{Mark, Order};
use packet::kinds;
use rows::Group;
use store::frames;

// Where the ring of a port begins in the store. A frame lies as far behind it in one port as in another.
fn ring_at(group: Group, port: u8) -> usize
    ensures { result ≡ port * group.window * (group.payload + 1) }
{
    port as usize * group.window as usize * (group.payload as usize + 1)
}

fn rings_of(group: Group, ports: [u8; 64], x: u8) -> [usize; 64]
    ensures { result ≡ rings_of group ports x }
{
    let n = ground::size_of(x);
    let mut rings = [0; 64];
    for rank in 0..n {
        rings[rank] = ring_at(group, ports[rank]);
    }
    rings
}

// A group frame out of the rings: the store is taken from where the frame lies in a ring that begins at the store's start.
fn frame_into(group: Group, order: Order, rings: &[usize; 64], store: &[u8], k: u8, out: &mut [u8])
    requires { rings.now ≡ rings_of group order.ports order.x }
    ensures { out.new ≡ frame_into group order store.now k out.old }
{
    let shift = frames::place(group, 0, k as u16);
    let x = order.x as usize;
    let p = group.payload as usize;
    if shift <= store.len() {
        payload::join_from(x, p, rings, &store[shift..], k as usize * (x * p), out);
    }
}

fn frames_joined(group: Group, order: Order, store: &[u8], count: u8, out: &mut [u8])
    ensures { out.new ≡ frames_into group order store.now count out.old }
{
    let rings = rings_of(group, order.ports, order.x);
    for k in 0..count {
        frame_into(group, order, &rings, store, k, out);
    }
}

// The frame of a member alone is a run of the store, and needs no table of starts.
fn alone_into(group: Group, order: Order, port: u8, store: &[u8], k: u8, out: &mut [u8])
    requires { (order.x ≡ 1) × (port ≡ get_or order.ports 0 0) }
    ensures { out.new ≡ frame_into group order store.now k out.old }
{
    let start = frames::place(group, port, k as u16);
    let p = group.payload as usize;
    if (1 <= p) & (p <= payload::PAYLOAD_MOST) & (start + p <= store.len()) {
        payload::lay(&store[start..start + p], k as usize * p, out);
    }
}

fn frames_alone(group: Group, order: Order, store: &[u8], count: u8, out: &mut [u8])
    requires { order.x ≡ 1 }
    ensures { out.new ≡ frames_into group order store.now count out.old }
{
    let port = order.ports[0];
    for k in 0..count {
        alone_into(group, order, port, store, k, out);
    }
}

fn frames_into(group: Group, order: Order, store: &[u8], count: u8, out: &mut [u8])
    ensures { out.new ≡ frames_into group order store.now count out.old }
{
    if order.x == 1 {
        frames_alone(group, order, store, count, out);
    } else {
        frames_joined(group, order, store, count, out);
    }
}

// The group frames of an epoch that is not held.
pub(crate) fn output_by(group: Group, mark: Mark, order: Order, store: &[u8], out: &mut [u8])
    ensures { out.new ≡ output_by group (mark_number mark) order store.now out.old }
{
    if mark == Mark::Held {
        return;
    }
    let count = kinds::epoch_frames(group.kind);
    frames_into(group, order, store, count, out);
}

fn joined_members(mark: Mark, x: u8) -> u8
    ensures { result ≡ (if mark_number mark == HELD then 0 else x) }
{
    if mark == Mark::Held { 0 } else { x }
}

fn byte_count(x: u8, frames: u8, payload: u16) -> u32
    ensures { result ≡ x * frames * payload }
{
    x as u32 * frames as u32 * payload as u32
}

pub(crate) fn report_by(group: Group, mark: Mark, cause: u8, order: Order) -> Report
    ensures { result ≡ report_by group (mark_number mark) cause order }
{
    let x = joined_members(mark, order.x);
    Report {
        mark: mark.number(),
        epoch: group.oldest,
        x,
        cause,
        bytes: byte_count(x, kinds::epoch_frames(group.kind), group.payload),
    }
}
