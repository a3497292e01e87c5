// c_face::senders for C.
ghost use Rattle.std.specs.Prelude.{◌≡◌, true};
ghost use Rattle.sender.specs.Calls.Call.{AddSlot, RemoveSlot, Report, Lapse};
ghost use Rattle.sender.specs.Epochs.SenderCall.{OnTable, StartEpoch};
ghost use Rattle.c_face.specs.Senders.{are_bytes, call_answer_c, call_state_c, packet_answer_c, packet_bytes_c, payload_answer_c, payload_bytes_c, start_answer_c, start_state_c};

#[unsafe(no_mangle)]
pub extern "C" fn levelspruce_sender_start(count: u32, first_epoch: u32, state: &mut [u8]) -> u8
    ensures { (result ≡ start_answer_c 0 count first_epoch state.old)
        × (state.new ≡ start_state_c 0 count first_epoch state.old) }
{
    c_face::senders::levelspruce_sender_start(count, first_epoch, state)
}

#[unsafe(no_mangle)]
pub extern "C" fn levelspruce_sender_start_as(
    kind: u32,
    count: u32,
    first_epoch: u32,
    state: &mut [u8],
) -> u8
    ensures { (result ≡ start_answer_c kind count first_epoch state.old)
        × (state.new ≡ start_state_c kind count first_epoch state.old) }
{
    c_face::senders::levelspruce_sender_start_as(kind, count, first_epoch, state)
}

#[unsafe(no_mangle)]
pub extern "C" fn levelspruce_sender_add(state: &mut [u8], slot: u32) -> u8
    ensures { (result ≡ call_answer_c true (OnTable (AddSlot slot)) state.old)
        × (state.new ≡ call_state_c true (OnTable (AddSlot slot)) state.old) }
{
    c_face::senders::levelspruce_sender_add(state, slot)
}

#[unsafe(no_mangle)]
pub extern "C" fn levelspruce_sender_remove(state: &mut [u8], slot: u32) -> u8
    ensures { (result ≡ call_answer_c true (OnTable (RemoveSlot slot)) state.old)
        × (state.new ≡ call_state_c true (OnTable (RemoveSlot slot)) state.old) }
{
    c_face::senders::levelspruce_sender_remove(state, slot)
}

#[unsafe(no_mangle)]
pub extern "C" fn levelspruce_sender_report(
    state: &mut [u8],
    epoch: u32,
    mst: u32,
    rs_ack: u32,
) -> u8
    ensures { (result ≡ call_answer_c (are_bytes epoch mst rs_ack) (OnTable (Report epoch mst rs_ack)) state.old)
        × (state.new ≡ call_state_c (are_bytes epoch mst rs_ack) (OnTable (Report epoch mst rs_ack)) state.old) }
{
    c_face::senders::levelspruce_sender_report(state, epoch, mst, rs_ack)
}

#[unsafe(no_mangle)]
pub extern "C" fn levelspruce_sender_lapse(state: &mut [u8]) -> u8
    ensures { (result ≡ call_answer_c true (OnTable Lapse) state.old)
        × (state.new ≡ call_state_c true (OnTable Lapse) state.old) }
{
    c_face::senders::levelspruce_sender_lapse(state)
}

#[unsafe(no_mangle)]
pub extern "C" fn levelspruce_sender_start_epoch(
    state: &mut [u8],
    gid: u32,
    mst: u32,
    rs_ack: u32,
) -> u8
    ensures { (result ≡ call_answer_c (are_bytes gid mst rs_ack) (StartEpoch gid mst rs_ack) state.old)
        × (state.new ≡ call_state_c (are_bytes gid mst rs_ack) (StartEpoch gid mst rs_ack) state.old) }
{
    c_face::senders::levelspruce_sender_start_epoch(state, gid, mst, rs_ack)
}

#[unsafe(no_mangle)]
pub extern "C" fn levelspruce_sender_packet(state: &[u8], slot: u32, h4: &mut [u8]) -> u8
    ensures { (result ≡ packet_answer_c state.now slot h4.old)
        × (h4.new ≡ packet_bytes_c state.now slot h4.old) }
{
    c_face::senders::levelspruce_sender_packet(state, slot, h4)
}

#[unsafe(no_mangle)]
pub extern "C" fn levelspruce_sender_payload(
    state: &[u8],
    slot: u32,
    p: u32,
    frame: &[u8],
    member: &mut [u8],
) -> u8
    ensures { (result ≡ payload_answer_c state.now slot p frame.now member.old)
        × (member.new ≡ payload_bytes_c state.now slot p frame.now member.old) }
{
    c_face::senders::levelspruce_sender_payload(state, slot, p, frame, member)
}
