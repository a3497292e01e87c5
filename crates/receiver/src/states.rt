// Member states and RS-Ack worked out at a report (01, 'Member states and reply').
#![tactic(auto, unfolding(crate::specs::Report::reply_port, crate::specs::Report::with_state, crate::specs::Report::state_put, crate::specs::Report::states_worked_out, crate::specs::Report::reported_of))]

ghost use Rattle.std.specs.Prelude.{◌≡◌, get_or};
ghost use Rattle.packet.specs.Shares.{shares_of};
ghost use Rattle.reply.specs.Waiting.{no_standing};
ghost use Rattle.phases.specs.Passing.{group_to};
ghost use Rattle.rows.specs.Member.{member_at, put_member};
ghost use Rattle.receiver.specs.Report.{no_port, reply_port, reply_ports, reported_of, with_state, states_worked_out, state_put, states_put};

use crate::each;
use reply::{Port, Standing};
use rows::{Group, Member};

fn reply_port(group: Group, state: &[[u8; 16]], port: u8) -> Port
    ensures { result ≡ reply_port group state.now port }
{
    let member = rows::member::get(state, port);
    let step = rows::step::get(state, port);
    Port {
        word: member.word,
        number: member.number,
        state: member.state,
        state_number: member.state_number,
        told_word: member.told_word,
        told_number: member.told_number,
        readable: step::is_readable(group, step),
        hold_off: member.hold_off,
        restore: member.restore,
        elapsed: member.elapsed,
    }
}

fn no_port() -> Port
    ensures { result ≡ no_port }
{
    Port {
        word: 0,
        number: 0,
        state: 0,
        state_number: 0,
        told_word: 0,
        told_number: 0,
        readable: false,
        hold_off: 0,
        restore: 0,
        elapsed: 0,
    }
}

pub(crate) fn reply_ports(group: Group, state: &[[u8; 16]], ports: u8) -> [Port; 64]
    ensures { result ≡ reply_ports group state.now ports }
{
    let mut all = [no_port(); 64];
    each::put_each(ground::size_byte(ports), &mut all, |port| {
        reply_port(group, state, port)
    });
    all
}

fn standing_at(states: [Standing; 64], port: u8) -> Standing
    ensures { result ≡ get_or states port no_standing }
{
    if port < 64 {
        return states[port as usize];
    }
    Standing {
        state: Port::IDLE,
        number: 0,
        elapsed: 0,
    }
}

fn with_state(m: Member, left: Standing) -> Member
    ensures { result ≡ with_state m left }
{
    Member {
        state: left.state,
        state_number: left.number,
        told_word: m.word,
        told_number: m.number,
        elapsed: left.elapsed,
        ..m
    }
}

fn put_standing(left: Standing, port: u8, state: &mut [[u8; 16]])
    ensures { state.new ≡ put_member state.old port (with_state (member_at state.old port) left) }
{
    let member = rows::member::get(state, port);
    rows::member::put(state, port, with_state(member, left));
}

fn put_state(states: [Standing; 64], port: u8, state: &mut [[u8; 16]])
    ensures { state.new ≡ state_put states port state.old }
{
    put_standing(standing_at(states, port), port, state);
}

fn put_states(states: [Standing; 64], ports: u8, state: &mut [[u8; 16]])
    ensures { state.new ≡ states_put states ports state.old }
{
    for port in 0..ports {
        put_state(states, port, state);
    }
}

fn with_ack(g: Group, ack: u8) -> Group
    ensures { result ≡ group_to g g.begun g.gathered g.oldest g.origin ack }
{
    Group { rs_ack: ack, ..g }
}

// A port alone needs no tables of 64.
fn work_out_alone(group: Group, state: &mut [[u8; 16]])
    ensures { state.new ≡ states_worked_out group 1 state.old }
{
    let port = reply_port(group, state, 0);
    let left = reply::standing_alone(port);
    let ack = reply::ack_alone(port, group.rs_ack);
    put_standing(left, 0, state);
    rows::group::put(state, with_ack(group, ack));
}

fn work_out_all(group: Group, ports: u8, state: &mut [[u8; 16]])
    ensures { state.new ≡ states_worked_out group ports state.old }
{
    let all = reply_ports(group, state, ports);
    let states = reply::standings(all, ports);
    let ack = reply::ack(all, ports, group.rs_ack);
    put_states(states, ports, state);
    rows::group::put(state, with_ack(group, ack));
}

fn work_out_states(group: Group, ports: u8, state: &mut [[u8; 16]])
    ensures { state.new ≡ states_worked_out group ports state.old }
{
    if ports == 1 {
        work_out_alone(group, state);
    } else {
        work_out_all(group, ports, state);
    }
}

// The epoch passed, then states and RS-Ack from the good packets up to its own.
pub(crate) fn pass(
    table: &[[u8; 256]; 7],
    group: Group,
    store: &[u8],
    ports: u8,
    state: &mut [[u8; 16]],
)
    requires { table.now ≡ shares_of }
    ensures { state.new ≡ reported_of group store.now ports state.old }
{
    phases::pass_with(table, group, store, ports, state);
    work_out_states(rows::group::get(state), ports, state);
}
