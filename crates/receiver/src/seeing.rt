// What the receiver saw: of each port the packet that rules the oldest epoch not yet reported.
#![tactic(auto, unfolding(crate::specs::Seen::carried_at, crate::specs::Seen::seen_row, crate::specs::Seen::seen_in, crate::specs::Seen::seen_answer, crate::specs::Seen::seen_out, crate::specs::Shown::shown_fit))]

ghost use Rattle.std.specs.Prelude.{◌≡◌, [], get_or, length};
ghost use Rattle.receiver.specs.Report.{ruling_epoch};
ghost use Rattle.receiver.specs.Seen.{carried_at, carried_by, nothing_carried, seen_answer, seen_in, seen_out, seen_row};
ghost use Rattle.rows.specs.Packets.{packets_at};
ghost use Rattle.step.specs.Carried.{other_number};

use crate::{each, flags, lengths, report};
use ground::Refusal;
use packet::{Fields, Unread};
use rows::Group;
use step::answers;
use store::marks;

// Kept: an answer beside the fields, since `seen_row` lays both down for C, zeros under a refusal too.
#[derive(Clone, Copy)]
pub struct Carried {
    // 0, 5, 6 or 7; only under 0 the rest says something
    pub answer: u8,
    pub epoch: u8,
    pub word: u8,
    pub number: u8,
    pub gid: u8,
    pub mst: u8,
    pub rs_ack: u8,
}

fn nothing_carried(answer: u8) -> Carried
    ensures { result ≡ nothing_carried answer }
{
    Carried {
        answer,
        epoch: 0,
        word: 0,
        number: 0,
        gid: 0,
        mst: 0,
        rs_ack: 0,
    }
}

fn carried_by(reading: Result<Fields, Unread>) -> Carried
    ensures { result ≡ carried_by reading }
{
    match reading {
        Ok(fields) => Carried {
            answer: 0,
            epoch: fields.epoch,
            word: fields.word.0,
            number: fields.sq,
            gid: fields.gid,
            mst: fields.mst,
            rs_ack: fields.rs_ack,
        },
        Err(unread) => nothing_carried(unread.number()),
    }
}

pub(crate) fn carried_at(group: Group, state: &[[u8; 16]], port: u8) -> Carried
    ensures { result ≡ carried_at group state.now port }
{
    let packets = rows::packets::get(state, port);
    carried_by(step::reading_of(group.kind, packets[1]))
}

fn is_other_at(group: Group, state: &[[u8; 16]], port: u8) -> bool
    ensures { result ≡ other_number group.kind (ruling_epoch group) (get_or (packets_at state.now port) 1 []) }
{
    let packets = rows::packets::get(state, port);
    step::is_other(group.kind, report::ruling_epoch(group), packets[1])
}

fn seen_row(whole: bool, other: bool, carried: Carried, here: bool) -> [u8; 10]
    ensures { result ≡ seen_row whole other carried here }
{
    let last = u8::from(here);
    if whole {
        return [
            1,
            carried.answer,
            u8::from(other),
            carried.epoch,
            carried.word,
            carried.number,
            carried.gid,
            carried.mst,
            carried.rs_ack,
            last,
        ];
    }
    [0, 0, 0, 0, 0, 0, 0, 0, 0, last]
}

fn seen_in(group: Group, state: &[[u8; 16]], port: u8) -> [u8; 10]
    ensures { result ≡ seen_in group state.now port }
{
    let step = rows::step::get(state, port);
    let whole = flags::is_set(step.whole);
    let other = is_other_at(group, state, port);
    let here = marks::first(rows::packets::marks(state, port));
    seen_row(whole, other, carried_at(group, state, port), here)
}

// Ten bytes a port.
pub fn seen(state: &[[u8; 16]], out: &mut [[u8; 10]]) -> u8
    ensures { (result ≡ seen_answer state.now (length out.old))
        × (out.new ≡ seen_out state.now out.old) }
{
    let group = rows::group::get(state);
    let count = phases::ports_in(group);
    if !lengths::is_lent(count, state.len(), out.len(), count as usize) {
        return answers::LENGTH;
    }
    // The clause stands here since none is found for a closure that returns an array.
    let row = |port|
        ensures { result ≡ seen_in group state.entry.now port }
    { seen_in(group, state, port) };
    each::put_each(count, out, row);
    answers::DONE
}
