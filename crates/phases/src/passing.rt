// The oldest epoch passed: gathered, or reported. Each port's packet of that epoch comes to rule, if it stands whole in the store.
ghost use Rattle.std.specs.Prelude.{◌≡◌, ◌-◌, if◌then◌else◌};
ghost use Rattle.store.specs.Frames.{ring_of};
ghost use Rattle.phases.specs.ByTable.{passed_port_with, passed_ports_with, passed_with};
ghost use Rattle.phases.specs.Passing.{group_to, noted_by, passed_group, passed_of, passed_step, ruled_by};

use packet::{Ruling, kinds};
use rows::{Group, Member, Step};
use store::{frames, marks};

// The two packets of a port, the second one of which rules.
fn ruled_by(packets: [[u8; 16]; 2], whole: bool, nibbles: [u8; 16]) -> [[u8; 16]; 2]
    ensures { result ≡ ruled_by packets whole nibbles }
{
    let mut pair = packets;
    if whole {
        pair[1] = nibbles;
    }
    pair
}

fn one_less(later: u8) -> u8
    ensures { result ≡ later - 1 }
{
    later.saturating_sub(1)
}

fn passed_step(s: Step, whole: bool) -> Step
    ensures { result ≡ passed_step s whole }
{
    Step {
        joined_at: one_less(s.joined_at),
        whole: u8::from(whole),
        ..s
    }
}

// A good packet's byte where the packet is whole and good.
fn good_byte(whole: bool, good: bool, new: u8, old: u8) -> u8
    ensures { result ≡ (if whole then (if good then new else old) else old) }
{
    if whole & good { new } else { old }
}

fn noted_by(m: Member, whole: bool, r: Ruling) -> Member
    ensures { result ≡ noted_by m whole r }
{
    Member {
        word: good_byte(whole, r.good, r.word, m.word),
        number: good_byte(whole, r.good, r.number, m.number),
        ..m
    }
}

fn pass_port(table: &[[u8; 256]; 7], group: Group, store: &[u8], port: u8, state: &mut [[u8; 16]])
    ensures { state.new ≡ passed_port_with table.now group store.now port state.old }
{
    let row = rows::packets::marks(state, port);
    let whole = marks::first(row);
    let nibbles = frames::packet_in(group, port, store);
    let ruling = step::ruling_of(table, group.kind, group.oldest, nibbles);
    let member = rows::member::get(state, port);
    let packets = rows::packets::get(state, port);
    let step = rows::step::get(state, port);
    let noted = noted_by(member, whole, ruling);
    let pair = ruled_by(packets, whole, nibbles);
    let passed = passed_step(step, whole);
    let left = marks::pass(row);
    rows::member::put(state, port, noted);
    rows::packets::put(state, port, pair);
    rows::step::put(state, port, passed);
    rows::packets::put_marks(state, port, left);
}

fn pass_ports(table: &[[u8; 256]; 7], group: Group, store: &[u8], ports: u8, state: &mut [[u8; 16]])
    ensures { state.new ≡ passed_ports_with table.now group store.now ports state.old }
{
    for i in 0..ports {
        pass_port(table, group, store, i, state);
    }
}

pub(crate) fn group_to(g: Group, begun: u8, gathered: u8, oldest: u8, origin: u16, ack: u8) -> Group
    ensures { result ≡ group_to g begun gathered oldest origin ack }
{
    Group {
        begun,
        gathered,
        oldest,
        origin,
        rs_ack: ack,
        ..g
    }
}

fn moved(origin: u16, by: u8, window: u16) -> u16
    ensures { result ≡ ring_of origin by window }
{
    if window == 0 {
        return 0;
    }
    ((origin as u32 + by as u32) % window as u32) as u16
}

fn passed_group(g: Group) -> Group
    ensures { result ≡ passed_group g }
{
    let next = kinds::next_epoch(g.kind, g.oldest);
    let frames = kinds::epoch_frames(g.kind);
    let origin = moved(g.origin, frames, g.window);
    group_to(g, g.begun, 1, next, origin, g.rs_ack)
}

// By a table that stands already.
pub fn pass_with(
    table: &[[u8; 256]; 7],
    group: Group,
    store: &[u8],
    ports: u8,
    state: &mut [[u8; 16]],
)
    ensures { state.new ≡ passed_with table.now group store.now ports state.old }
{
    let next = passed_group(group);
    pass_ports(table, group, store, ports, state);
    rows::group::put(state, next);
}

pub fn pass(group: Group, store: &[u8], ports: u8, state: &mut [[u8; 16]])
    ensures { state.new ≡ passed_of group store.now ports state.old }
{
    let table = packet::share_table();
    pass_with(&table, group, store, ports, state);
}
