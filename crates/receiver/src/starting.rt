// A receiver's start (01, 'Answer numbers': 'At starting, 4 comes before 9').
#![tactic(auto, unfolding(crate::specs::Starting::fresh_port, crate::specs::Starting::start_fits, crate::specs::Starting::sized_fits, crate::specs::Starting::sized_answer, crate::specs::Starting::sized_rows, crate::specs::Starting::start_right, crate::specs::Starting::start_as_answer, crate::specs::Starting::start_as_rows))]

ghost use Rattle.std.specs.Prelude.{◌≡◌, ◌||◌, length, if◌then◌else◌, ◌==◌};
ghost use Rattle.ground.specs.Plain.{◌<?◌};
ghost use Rattle.receiver.specs.Starting.{fresh_member, fresh_port, fresh_ports, fresh_step, group_with, sized_answer, sized_rows, start_answer, start_as_answer, start_as_rows, start_fits, start_right, start_rows, time_of, timer_most, times_within};

use packet::kinds;
use reply::Port;
use rows::{Group, Member, Step};
use step::answers;

// The longest hold-off and the longest wait-to-restore, in reports.
const TIMER_MOST: u32 = 5000;

fn group_with(kind: u8, count: u8, payload: u16, window: u16) -> Group
    ensures { result ≡ group_with kind count payload window }
{
    Group {
        spare: [0; 4],
        kind,
        count,
        payload,
        window,
        begun: 0,
        gathered: 0,
        oldest: 0,
        origin: 0,
        rs_ack: 0,
    }
}

fn fresh_step() -> Step
    ensures { result ≡ fresh_step }
{
    Step {
        spare: [0; 4],
        heard: 0,
        failed: 0,
        count: 0,
        next: 0,
        joined: 0,
        ever_since: 0,
        joined_at: 0,
        whole: 0,
        breaks: 0,
        odd: 0,
        bits: 0,
    }
}

fn fresh_member(kind: u8, hold_off: u16, restore: u16) -> Member
    ensures { result ≡ fresh_member kind hold_off restore }
{
    let none = kinds::idle_number(kind);
    Member {
        spare: [0; 4],
        word: Port::NO_WORD,
        number: none,
        state: Port::IDLE,
        state_number: none,
        told_word: Port::NO_WORD,
        told_number: none,
        hold_off,
        restore,
        elapsed: 0,
    }
}

fn capped(count: u32) -> u16
    ensures { result ≡ (if count <? timer_most then count else timer_most) }
{
    count.min(TIMER_MOST) as u16
}

// The count of a port; an empty list is zero for every port.
fn time_of(counts: &[u32], port: u8) -> u16
    ensures { result ≡ time_of counts.now port }
{
    counts.get(port as usize).map_or(0, |&count| capped(count))
}

fn put_port(kind: u8, hold_off: &[u32], restore: &[u32], port: u8, state: &mut [[u8; 16]])
    ensures { state.new ≡ fresh_port kind hold_off.now restore.now port state.old }
{
    let member = fresh_member(kind, time_of(hold_off, port), time_of(restore, port));
    rows::step::put(state, port, fresh_step());
    rows::member::put(state, port, member);
    rows::packets::put(state, port, [[0; 16]; 2]);
    rows::packets::put_marks(state, port, [0; 16]);
}

fn put_ports(kind: u8, hold_off: &[u32], restore: &[u32], ports: u8, state: &mut [[u8; 16]])
    ensures { state.new ≡ fresh_ports kind hold_off.now restore.now ports state.old }
{
    for port in 0..ports {
        put_port(kind, hold_off, restore, port, state);
    }
}

// Each is looked at, also behind one that is too long: so several are compared at once.
pub fn times_within(counts: &[u32]) -> bool
    ensures { result ≡ times_within counts.now }
{
    let mut all = true;
    for count in counts {
        all &= *count <= TIMER_MOST;
    }
    all
}

fn is_list(counts: usize, ports: u8) -> bool
    ensures { result ≡ (counts == 0 || counts == ports) }
{
    (counts == 0) | (counts == ports as usize)
}

fn is_fitting(count: u8, payload: u16, window: u16, store: usize, rows: usize) -> bool
    ensures { result ≡ start_fits count payload window store rows }
{
    (rows == rows::group::rows_for(count))
        & (store == count as usize * window as usize * (payload as usize + 1))
}

// A start with ranges already right.
fn start_sized(
    kind: u8,
    count: u8,
    payload: u16,
    window: u16,
    store: usize,
    hold_off: &[u32],
    restore: &[u32],
    state: &mut [[u8; 16]],
) -> u8
    ensures { (result ≡ sized_answer count payload window store hold_off.now restore.now (length state.old))
        × (state.new ≡ sized_rows kind count payload window store hold_off.now restore.now state.old) }
{
    let lists = is_list(hold_off.len(), count) & is_list(restore.len(), count);
    if !(lists & is_fitting(count, payload, window, store, state.len())) {
        return answers::LENGTH;
    }
    put_ports(kind, hold_off, restore, count, state);
    rows::group::put(state, group_with(kind, count, payload, window));
    answers::DONE
}

fn is_right(
    kind: u8,
    count: u32,
    payload: u32,
    window: u32,
    hold_off: &[u32],
    restore: &[u32],
) -> bool
    ensures { result ≡ start_right kind count payload window hold_off.now restore.now }
{
    times_within(hold_off)
        & times_within(restore)
        & phases::is_startable(kind, count, payload, window)
}

// A fresh receiver with so many ports, P, W and bytes of store, and the times of its ports: hold-off and wait-to-restore, in reports. A list has a
// count for each port, or none at all.
pub fn start_as(
    kind: u8,
    count: u32,
    payload: u32,
    window: u32,
    store: usize,
    hold_off: &[u32],
    restore: &[u32],
    state: &mut [[u8; 16]],
) -> u8
    ensures { (result ≡ start_as_answer kind count payload window store hold_off.now restore.now (length state.old))
        × (state.new ≡ start_as_rows kind count payload window store hold_off.now restore.now state.old) }
{
    if is_right(kind, count, payload, window, hold_off, restore) {
        return start_sized(
            kind,
            count as u8,
            payload as u16,
            window as u16,
            store,
            hold_off,
            restore,
            state,
        );
    }
    rows::group::put(state, group_with(kind, 0, 0, 0));
    answers::OUT_OF_RANGE
}

// The same with no times.
pub fn start(
    kind: u8,
    count: u32,
    payload: u32,
    window: u32,
    store: usize,
    state: &mut [[u8; 16]],
) -> u8
    ensures { (result ≡ start_answer kind count payload window store (length state.old))
        × (state.new ≡ start_rows kind count payload window store state.old) }
{
    start_as(kind, count, payload, window, store, &[], &[], state)
}
