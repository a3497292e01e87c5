// The sender for C. The whole state is a lent buffer; a refusal changes no byte of it, but for the empty group of a refused start.
ghost use Rattle.std.specs.Prelude.{◌≡◌, true, length};
ghost use Rattle.sender.specs.Calls.Call.{AddSlot, RemoveSlot, Report, Lapse};
ghost use Rattle.ground.specs.Refusals.{number_told};
ghost use Rattle.sender.specs.Answers.{refusal_number};
ghost use Rattle.sender.specs.Epochs.SenderCall.{OnTable, StartEpoch};
ghost use Rattle.c_face.specs.Keeping.{state_bytes};
ghost use Rattle.c_face.specs.Senders.{are_bytes, call_answer_c, call_state_c, is_epoch, no_start, outside, packet_answer_c, packet_bytes_c, payload_answer_c, payload_bytes_c, sends, start_answer_c, start_state_c, told_bytes};

use crate::keeping;
use crate::keeping::SENDER_BYTES;
use packet::kinds;
use sender::{Refusal, Sender};

pub(crate) fn is_outside(count: u32) -> bool
    ensures { result ≡ outside count }
{
    (count == 0) | (64 < count)
}

pub fn are_bytes(a: u32, b: u32, c: u32) -> bool
    ensures { result ≡ are_bytes a b c }
{
    (a < 256) & (b < 256) & (c < 256)
}

// Any number may come as a kind; of a fixed group there are receivers alone.
fn is_sent(kind: u32) -> bool
    ensures { result ≡ sends kind }
{
    if kind > 255 {
        return false;
    }
    let named = kind as u8;
    let known = kinds::is_known(named);
    known & !(named == kinds::FIXED)
}

pub fn is_no_start(kind: u32, count: u32) -> bool
    ensures { result ≡ no_start kind count }
{
    let out = is_outside(count);
    let sent = is_sent(kind);
    out | !sent
}

pub fn is_epoch(kind: u8, epoch: u32) -> bool
    ensures { result ≡ is_epoch kind epoch }
{
    let tags = kinds::tag_count(kind);
    let frames = kinds::epoch_frames(kind);
    epoch < (tags / frames as u16) as u32
}

fn start_by(kind: u32, count: u32, first_epoch: u32, state: &mut [u8]) -> u8
    ensures { (result ≡ start_answer_c kind count first_epoch state.old)
        × (state.new ≡ start_state_c kind count first_epoch state.old) }
{
    if state.len() != SENDER_BYTES {
        return if is_no_start(kind, count) { 4 } else { 9 };
    }
    if is_no_start(kind, count) {
        keeping::put_sender(Sender::empty(kinds::H4, 0), state);
        return 4;
    }
    if !is_epoch(kind as u8, first_epoch) {
        return 8;
    }
    keep(Sender::start(kind as u8, count, first_epoch as u8), state)
}

// What a call leaves: its sender's bytes, and under a refusal the bytes as they were.
fn keep(answer: Result<Sender, Refusal>, state: &mut [u8]) -> u8
    requires { length state.old ≡ state_bytes }
    ensures { (result ≡ number_told refusal_number answer) × (state.new ≡ told_bytes answer state.old) }
{
    if let Ok(sender) = answer {
        keeping::put_sender(sender, state);
    }
    ground::number_told(answer)
}

pub fn levelspruce_sender_start(count: u32, first_epoch: u32, state: &mut [u8]) -> u8
    ensures { (result ≡ start_answer_c 0 count first_epoch state.old)
        × (state.new ≡ start_state_c 0 count first_epoch state.old) }
{
    start_by(kinds::H4 as u32, count, first_epoch, state)
}

pub fn levelspruce_sender_start_as(kind: u32, count: u32, first_epoch: u32, state: &mut [u8]) -> u8
    ensures { (result ≡ start_answer_c kind count first_epoch state.old)
        × (state.new ≡ start_state_c kind count first_epoch state.old) }
{
    start_by(kind, count, first_epoch, state)
}

pub fn levelspruce_sender_add(state: &mut [u8], slot: u32) -> u8
    ensures { (result ≡ call_answer_c true (OnTable (AddSlot slot)) state.old)
        × (state.new ≡ call_state_c true (OnTable (AddSlot slot)) state.old) }
{
    if state.len() != SENDER_BYTES {
        return 9;
    }
    let sender = keeping::sender_of(state);
    keep(sender.add(slot), state)
}

pub fn levelspruce_sender_remove(state: &mut [u8], slot: u32) -> u8
    ensures { (result ≡ call_answer_c true (OnTable (RemoveSlot slot)) state.old)
        × (state.new ≡ call_state_c true (OnTable (RemoveSlot slot)) state.old) }
{
    if state.len() != SENDER_BYTES {
        return 9;
    }
    let sender = keeping::sender_of(state);
    keep(sender.remove(slot), state)
}

pub fn levelspruce_sender_report(state: &mut [u8], epoch: u32, mst: u32, rs_ack: u32) -> u8
    ensures { (result ≡ call_answer_c (are_bytes epoch mst rs_ack) (OnTable (Report epoch mst rs_ack)) state.old)
        × (state.new ≡ call_state_c (are_bytes epoch mst rs_ack) (OnTable (Report epoch mst rs_ack)) state.old) }
{
    if state.len() != SENDER_BYTES {
        return 9;
    }
    if !are_bytes(epoch, mst, rs_ack) {
        return 8;
    }
    let sender = keeping::sender_of(state);
    let left = sender.report(epoch as u8, mst as u8, rs_ack as u8);
    keep(Ok(left), state)
}

pub fn levelspruce_sender_lapse(state: &mut [u8]) -> u8
    ensures { (result ≡ call_answer_c true (OnTable Lapse) state.old)
        × (state.new ≡ call_state_c true (OnTable Lapse) state.old) }
{
    if state.len() != SENDER_BYTES {
        return 9;
    }
    let sender = keeping::sender_of(state);
    keep(sender.lapse(), state)
}

pub fn levelspruce_sender_start_epoch(state: &mut [u8], gid: u32, mst: u32, rs_ack: u32) -> u8
    ensures { (result ≡ call_answer_c (are_bytes gid mst rs_ack) (StartEpoch gid mst rs_ack) state.old)
        × (state.new ≡ call_state_c (are_bytes gid mst rs_ack) (StartEpoch gid mst rs_ack) state.old) }
{
    if state.len() != SENDER_BYTES {
        return 9;
    }
    if !are_bytes(gid, mst, rs_ack) {
        return 8;
    }
    let sender = keeping::sender_of(state);
    keep(
        sender.start_epoch(gid as u8, mst as u8, rs_ack as u8),
        state,
    )
}

pub fn levelspruce_sender_packet(state: &[u8], slot: u32, h4: &mut [u8]) -> u8
    ensures { (result ≡ packet_answer_c state.now slot h4.old)
        × (h4.new ≡ packet_bytes_c state.now slot h4.old) }
{
    if state.len() != SENDER_BYTES {
        return 9;
    }
    let sender = keeping::sender_of(state);
    ground::number_told(sender.packet(slot, h4))
}

pub fn levelspruce_sender_payload(
    state: &[u8],
    slot: u32,
    p: u32,
    frame: &[u8],
    member: &mut [u8],
) -> u8
    ensures { (result ≡ payload_answer_c state.now slot p frame.now member.old)
        × (member.new ≡ payload_bytes_c state.now slot p frame.now member.old) }
{
    if state.len() != SENDER_BYTES {
        return 9;
    }
    let sender = keeping::sender_of(state);
    ground::number_told(sender.payload(slot, p, frame, member))
}
