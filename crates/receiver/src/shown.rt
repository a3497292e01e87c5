// What the host reads out: the ports, and the reply (01, 'Member states and reply').
#![tactic(auto, unfolding(crate::specs::Shown::port_shown, crate::specs::Shown::port_in, crate::specs::Shown::shown_fit, crate::specs::Shown::ports_answer, crate::specs::Shown::ports_out, crate::specs::Shown::reply_of, crate::specs::Shown::reply_fit, crate::specs::Shown::reply_answer, crate::specs::Shown::reply_out))]

ghost use Rattle.std.specs.Prelude.{◌≡◌, length};
ghost use Rattle.receiver.specs.Shown.{port_in, port_shown, ports_answer, ports_out, reply_answer, reply_byte, reply_out, shown_number, waiting_byte};

use crate::{each, flags, lengths, states};
use packet::kinds;
use reply::Port;
use rows::{Group, Member, Step};
use step::answers;

fn shown_number(kind: u8, member: Member) -> u8
    ensures { result ≡ shown_number kind member }
{
    if member.state == Port::IDLE {
        return kinds::idle_number(kind);
    }
    member.state_number
}

// Which timer runs.
fn waiting_byte(member: Member) -> u8
    ensures { result ≡ waiting_byte member }
{
    if member.elapsed == 0 {
        return 0;
    }
    if member.state == Port::OK {
        return 1;
    }
    if member.state == Port::FAIL { 2 } else { 0 }
}

fn port_shown(group: Group, step: Step, member: Member) -> [u8; 8]
    ensures { result ≡ port_shown group step member }
{
    [
        member.state,
        shown_number(group.kind, member),
        u8::from(step::in_step(group, step)),
        u8::from(flags::is_set(step.joined)),
        u8::from(step::is_readable(group, step)),
        u8::from(flags::is_set(step.failed)),
        member.word,
        waiting_byte(member),
    ]
}

fn port_in(group: Group, state: &[[u8; 16]], port: u8) -> [u8; 8]
    ensures { result ≡ port_in group state.now port }
{
    let step = rows::step::get(state, port);
    let member = rows::member::get(state, port);
    port_shown(group, step, member)
}

// Eight bytes a port.
pub fn ports(state: &[[u8; 16]], out: &mut [[u8; 8]]) -> u8
    ensures { (result ≡ ports_answer state.now (length out.old))
        × (out.new ≡ ports_out state.now out.old) }
{
    let group = rows::group::get(state);
    let count = phases::ports_in(group);
    if !lengths::is_lent(count, state.len(), out.len(), count as usize) {
        return answers::LENGTH;
    }
    // The clause stands here since none is found for a closure that returns an array.
    let row = |port|
        ensures { result ≡ port_in group state.entry.now port }
    { port_in(group, state, port) };
    each::put_each(count, out, row);
    answers::DONE
}

// Nothing is told to the far end of a fixed group: what is read is what an end without LCAS sends back.
fn reply_byte(kind: u8, byte: u8) -> u8
    ensures { result ≡ reply_byte kind byte }
{
    if kind == kinds::FIXED { 0 } else { byte }
}

// The reply of an epoch: its MST byte, then RS-Ack.
pub fn reply(state: &[[u8; 16]], epoch: u8, out: &mut [u8]) -> u8
    ensures { (result ≡ reply_answer state.now (length out.old))
        × (out.new ≡ reply_out state.now epoch out.old) }
{
    let group = rows::group::get(state);
    let count = phases::ports_in(group);
    if !lengths::is_lent(count, state.len(), out.len(), 2) {
        return answers::LENGTH;
    }
    let all = states::reply_ports(group, state, count);
    let mst = reply::mst(group.kind, all, count, epoch);
    let ack = u8::from(flags::is_set(group.rs_ack));
    out.copy_from_slice(&[reply_byte(group.kind, mst), reply_byte(group.kind, ack)]);
    answers::DONE
}
