// What follows from a frame for all ports (01, 'Beginning'): stopping comes first, then the beginning, then gathering.
ghost use Rattle.std.specs.Prelude.{◌≡◌};
ghost use Rattle.phases.specs.Settling.{begin_by, begun_of, cleared_port, cleared_ports, cleared_step, gather_by, settled_of, stop_by, stopped_of};

use crate::flags::is_set;
use crate::{due, passing, starting};
use packet::kinds;
use rows::{Group, Step};

fn cleared_step(s: Step, since: bool) -> Step
    ensures { result ≡ cleared_step s since }
{
    Step {
        joined: 0,
        ever_since: u8::from(since),
        joined_at: 0,
        whole: 0,
        ..s
    }
}

fn clear_port(group: Group, beginning: bool, port: u8, state: &mut [[u8; 16]])
    ensures { state.new ≡ cleared_port group beginning port state.old }
{
    let step = rows::step::get(state, port);
    let in_step = step::in_step(group, step);
    let cleared = cleared_step(step, beginning & in_step);
    rows::step::put(state, port, cleared);
    rows::packets::put_marks(state, port, [0; 16]);
}

fn clear_ports(group: Group, beginning: bool, ports: u8, state: &mut [[u8; 16]])
    ensures { state.new ≡ cleared_ports group beginning ports state.old }
{
    for i in 0..ports {
        clear_port(group, beginning, i, state);
    }
}

fn stop(group: Group, ports: u8, state: &mut [[u8; 16]])
    ensures { state.new ≡ stopped_of group ports state.old }
{
    let stopped = passing::group_to(group, 0, 0, 0, group.origin, group.rs_ack);
    clear_ports(group, false, ports, state);
    rows::group::put(state, stopped);
}

fn stop_by(group: Group, ports: u8, state: &mut [[u8; 16]])
    ensures { state.new ≡ stop_by group ports state.old }
{
    if is_set(group.begun) {
        if due::is_silent(group, state, ports) {
            stop(group, ports, state);
        }
    }
}

fn begin(group: Group, ports: u8, state: &mut [[u8; 16]])
    ensures { state.new ≡ begun_of group ports state.old }
{
    let fore = starting::foremost(group, state, ports);
    let epoch = kinds::epoch_of(group.kind, fore);
    let oldest = kinds::next_epoch(group.kind, epoch);
    let begun = passing::group_to(group, 1, 0, oldest, group.origin, group.rs_ack);
    clear_ports(group, true, ports, state);
    rows::group::put(state, begun);
}

fn begin_by(group: Group, ports: u8, state: &mut [[u8; 16]])
    ensures { state.new ≡ begin_by group ports state.old }
{
    if !is_set(group.begun) {
        if starting::is_begun_by(group, state, ports) {
            begin(group, ports, state);
        }
    }
}

fn gather_by(group: Group, store: &[u8], ports: u8, state: &mut [[u8; 16]])
    ensures { state.new ≡ gather_by group store.now ports state.old }
{
    if is_set(group.begun) & !is_set(group.gathered) {
        if due::is_complete(group, state, ports) {
            passing::pass(group, store, ports, state);
        }
    }
}

pub fn settle(ports: u8, store: &[u8], state: &mut [[u8; 16]])
    ensures { state.new ≡ settled_of ports store.now state.old }
{
    let before = rows::group::get(state);
    stop_by(before, ports, state);
    let stopped = rows::group::get(state);
    begin_by(stopped, ports, state);
    let begun = rows::group::get(state);
    gather_by(begun, store, ports, state);
}
