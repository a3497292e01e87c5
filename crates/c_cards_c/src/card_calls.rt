// c_cards::card_calls for C.
ghost use Rattle.std.specs.Prelude.{◌≡◌, true};
ghost use Rattle.cards.specs.Calls.Call.{Claim, Release, AddSlot, RemoveSlot, Report, Lapse, StartEpoch};
ghost use Rattle.c_cards.specs.Cards.{board_bytes_on, call_answer_on, call_state_on, outgoing_bytes_on, owned_bytes_on, packet_answer_on, packet_bytes_on, payload_answer_on, payload_bytes_on, ranks_bytes_on, shown_answer_on, start_answer_on, start_state_on};
ghost use Rattle.c_face.specs.Senders.{are_bytes};

#[unsafe(no_mangle)]
pub extern "C" fn levelspruce_card_start(
    count: u32,
    first_epoch_0: u32,
    first_epoch_1: u32,
    state: &mut [u8],
) -> u8
    ensures { (result ≡ start_answer_on 0 count first_epoch_0 first_epoch_1 state.old)
        × (state.new ≡ start_state_on 0 count first_epoch_0 first_epoch_1 state.old) }
{
    c_cards::card_calls::levelspruce_card_start(count, first_epoch_0, first_epoch_1, state)
}

#[unsafe(no_mangle)]
pub extern "C" fn levelspruce_card_start_as(
    kind: u32,
    count: u32,
    first_epoch_0: u32,
    first_epoch_1: u32,
    state: &mut [u8],
) -> u8
    ensures { (result ≡ start_answer_on kind count first_epoch_0 first_epoch_1 state.old)
        × (state.new ≡ start_state_on kind count first_epoch_0 first_epoch_1 state.old) }
{
    c_cards::card_calls::levelspruce_card_start_as(kind, count, first_epoch_0, first_epoch_1, state)
}

#[unsafe(no_mangle)]
pub extern "C" fn levelspruce_card_claim(state: &mut [u8], group: u32, slot: u32) -> u8
    ensures { (result ≡ call_answer_on true group (Claim slot) state.old)
        × (state.new ≡ call_state_on true group (Claim slot) state.old) }
{
    c_cards::card_calls::levelspruce_card_claim(state, group, slot)
}

#[unsafe(no_mangle)]
pub extern "C" fn levelspruce_card_release(state: &mut [u8], group: u32, slot: u32) -> u8
    ensures { (result ≡ call_answer_on true group (Release slot) state.old)
        × (state.new ≡ call_state_on true group (Release slot) state.old) }
{
    c_cards::card_calls::levelspruce_card_release(state, group, slot)
}

#[unsafe(no_mangle)]
pub extern "C" fn levelspruce_card_add(state: &mut [u8], group: u32, slot: u32) -> u8
    ensures { (result ≡ call_answer_on true group (AddSlot slot) state.old)
        × (state.new ≡ call_state_on true group (AddSlot slot) state.old) }
{
    c_cards::card_calls::levelspruce_card_add(state, group, slot)
}

#[unsafe(no_mangle)]
pub extern "C" fn levelspruce_card_remove(state: &mut [u8], group: u32, slot: u32) -> u8
    ensures { (result ≡ call_answer_on true group (RemoveSlot slot) state.old)
        × (state.new ≡ call_state_on true group (RemoveSlot slot) state.old) }
{
    c_cards::card_calls::levelspruce_card_remove(state, group, slot)
}

#[unsafe(no_mangle)]
pub extern "C" fn levelspruce_card_lapse(state: &mut [u8], group: u32) -> u8
    ensures { (result ≡ call_answer_on true group Lapse state.old)
        × (state.new ≡ call_state_on true group Lapse state.old) }
{
    c_cards::card_calls::levelspruce_card_lapse(state, group)
}

#[unsafe(no_mangle)]
pub extern "C" fn levelspruce_card_report(
    state: &mut [u8],
    group: u32,
    epoch: u32,
    mst: u32,
    rs_ack: u32,
) -> u8
    ensures { (result ≡ call_answer_on (are_bytes epoch mst rs_ack) group (Report epoch mst rs_ack) state.old)
        × (state.new ≡ call_state_on (are_bytes epoch mst rs_ack) group (Report epoch mst rs_ack) state.old) }
{
    c_cards::card_calls::levelspruce_card_report(state, group, epoch, mst, rs_ack)
}

#[unsafe(no_mangle)]
pub extern "C" fn levelspruce_card_start_epoch(
    state: &mut [u8],
    group: u32,
    gid: u32,
    mst: u32,
    rs_ack: u32,
) -> u8
    ensures { (result ≡ call_answer_on (are_bytes gid mst rs_ack) group (StartEpoch gid mst rs_ack) state.old)
        × (state.new ≡ call_state_on (are_bytes gid mst rs_ack) group (StartEpoch gid mst rs_ack) state.old) }
{
    c_cards::card_calls::levelspruce_card_start_epoch(state, group, gid, mst, rs_ack)
}

#[unsafe(no_mangle)]
pub extern "C" fn levelspruce_card_packet(state: &[u8], group: u32, slot: u32, h4: &mut [u8]) -> u8
    ensures { (result ≡ packet_answer_on state.now group slot h4.old)
        × (h4.new ≡ packet_bytes_on state.now group slot h4.old) }
{
    c_cards::card_calls::levelspruce_card_packet(state, group, slot, h4)
}

#[unsafe(no_mangle)]
pub extern "C" fn levelspruce_card_payload(
    state: &[u8],
    group: u32,
    slot: u32,
    p: u32,
    frame: &[u8],
    member: &mut [u8],
) -> u8
    ensures { (result ≡ payload_answer_on state.now group slot p frame.now member.old)
        × (member.new ≡ payload_bytes_on state.now group slot p frame.now member.old) }
{
    c_cards::card_calls::levelspruce_card_payload(state, group, slot, p, frame, member)
}

#[unsafe(no_mangle)]
pub extern "C" fn levelspruce_card_board(state: &[u8], group: u32, board: &mut [u8]) -> u8
    ensures { (result ≡ shown_answer_on 130 state.now group board.old)
        × (board.new ≡ board_bytes_on state.now group board.old) }
{
    c_cards::card_calls::levelspruce_card_board(state, group, board)
}

#[unsafe(no_mangle)]
pub extern "C" fn levelspruce_card_board_going(state: &[u8], group: u32, board: &mut [u8]) -> u8
    ensures { (result ≡ shown_answer_on 130 state.now group board.old)
        × (board.new ≡ outgoing_bytes_on state.now group board.old) }
{
    c_cards::card_calls::levelspruce_card_board_going(state, group, board)
}

#[unsafe(no_mangle)]
pub extern "C" fn levelspruce_card_ranks(state: &[u8], group: u32, ranks: &mut [u8]) -> u8
    ensures { (result ≡ shown_answer_on 68 state.now group ranks.old)
        × (ranks.new ≡ ranks_bytes_on state.now group ranks.old) }
{
    c_cards::card_calls::levelspruce_card_ranks(state, group, ranks)
}

#[unsafe(no_mangle)]
pub extern "C" fn levelspruce_card_owned(state: &[u8], group: u32, owned: &mut [u8]) -> u8
    ensures { (result ≡ shown_answer_on 64 state.now group owned.old)
        × (owned.new ≡ owned_bytes_on state.now group owned.old) }
{
    c_cards::card_calls::levelspruce_card_owned(state, group, owned)
}
