// Two circuits on one card for C. The whole state is a lent buffer: the owner row, then a sender's state for each group. A call reads and writes the owner row and its group's own part.
ghost use Rattle.std.specs.Prelude.{◌≡◌, true, ◌<◌, length};
ghost use Rattle.ground.specs.Refusals.{number_told};
ghost use Rattle.cards.specs.Answers.{refusal_number};
ghost use Rattle.cards.specs.Calls.Call.{Claim, Release, AddSlot, RemoveSlot, Report, Lapse, StartEpoch};
ghost use Rattle.cards.specs.Owners.{owner_in};
ghost use Rattle.ground.specs.Drawn.{fill_at};
ghost use Rattle.c_cards.specs.Cards.{alone, are_epochs, board_bytes_on, call_answer_on, call_state_on, card_bytes, card_of, outgoing_bytes_on, owned_bytes_on, owners_in, packet_answer_on, packet_bytes_on, part_at, part_in, payload_answer_on, payload_bytes_on, put_card, put_own, ranks_bytes_on, refusal_of, shown_answer_on, start_answer_on, start_state_on, told_card};
ghost use Rattle.c_face.specs.Keeping.{byte_at, sender_of, state_bytes};
ghost use Rattle.c_cards.specs.Laws.Slots.{slot_packet_answer, slot_packet_bytes, slot_refusal};
ghost use Rattle.c_face.specs.Senders.{are_bytes};

use crate::{boards, keeping};
use c_face::boards::{BOARD_BYTES, RANKS_BYTES};
use c_face::senders;
use cards::Card;
use ground::Refusal;
use packet::kinds;
use sender::Sender;

// The state of a card with two groups.
pub(crate) const CARD_BYTES: usize = 858;

// Where the part of each group's sender begins: behind the owners of the 64 slots, and behind the other's part.
const FIRST_PART: usize = 64;

const SECOND_PART: usize = 461;

// 9 for a state of another length, then 1 for a group other than the two.
pub(crate) fn refusal(length: usize, group: u32) -> u8
    ensures { result ≡ refusal_of length group }
{
    if length != CARD_BYTES {
        return 9;
    }
    if group < 2 { 0 } else { 1 }
}

fn owners_in(state: &[u8]) -> [u8; 64]
    requires { length state.now ≡ card_bytes }
    ensures { result ≡ owners_in state.now }
{
    let mut owners = [0; 64];
    let mut i = 0;
    while i < 64 {
        owners[i] = state[i];
        i += 1;
    }
    owners
}

pub(crate) fn part_in(state: &[u8], group: u32) -> Sender
    requires { length state.now ≡ card_bytes }
    ensures { result ≡ sender_of (part_in group state.now) }
{
    if group == 0 {
        return keeping::sender_of(&state[FIRST_PART..SECOND_PART]);
    }
    keeping::sender_of(&state[SECOND_PART..CARD_BYTES])
}

// The card as one group may know it: its own sender stands in the other's place too, so that the other's part is not read.
// Inlined, as `keep`: a card handed on lies on the stack twice.
#[inline(always)]
pub(crate) fn own_card(state: &[u8], group: u32) -> Card
    requires { length state.now ≡ card_bytes }
    ensures { result ≡ alone group (card_of state.now) }
{
    let owners = owners_in(state);
    let sender = part_in(state, group);
    Card {
        owners,
        first: sender,
        second: sender,
    }
}

fn put_part(sender: &Sender, group: u32, state: &mut [u8])
    requires { length state.old ≡ card_bytes }
    ensures { state.new ≡ fill_at (part_at group) state_bytes (byte_at sender.now) state.old }
{
    if group == 0 {
        keeping::put_sender(sender, &mut state[FIRST_PART..SECOND_PART]);
        return;
    }
    keeping::put_sender(sender, &mut state[SECOND_PART..CARD_BYTES]);
}

// Behind a reference, and a call of its own, as is `keeping::put_sender`: no second card lies on the stack, and no call has the writing of a card's
// fields by itself. A sender picked out by value would be laid down there byte by byte.
#[inline(never)]
pub(crate) fn put_own(card: &Card, group: u32, state: &mut [u8])
    requires { length state.old ≡ card_bytes }
    ensures { state.new ≡ put_own group card.now state.old }
{
    keeping::put_bytes(&card.owners, 0, state);
    if group == 0 {
        put_part(&card.first, group, state);
        return;
    }
    put_part(&card.second, group, state);
}

// What a call leaves: the owner row and the group's part, and under a refusal the bytes as they were.
#[inline(always)]
pub(crate) fn keep(answer: Result<Card, cards::Refusal>, group: u32, state: &mut [u8]) -> u8
    requires { length state.old ≡ card_bytes }
    ensures { (result ≡ number_told refusal_number answer) × (state.new ≡ told_card group answer state.old) }
{
    match answer {
        Ok(card) => {
            put_own(&card, group, state);
            0
        }
        Err(refusal) => refusal.number(),
    }
}

fn put_whole(card: &Card, state: &mut [u8])
    requires { length state.old ≡ card_bytes }
    ensures { state.new ≡ put_card card.now state.old }
{
    put_own(card, 0, state);
    put_own(card, 1, state);
}

fn are_epochs(kind: u8, epoch_0: u32, epoch_1: u32) -> bool
    ensures { result ≡ are_epochs kind epoch_0 epoch_1 }
{
    let first = senders::is_epoch(kind, epoch_0);
    let second = senders::is_epoch(kind, epoch_1);
    first & second
}

fn start_by(kind: u32, count: u32, first_epoch_0: u32, first_epoch_1: u32, state: &mut [u8]) -> u8
    ensures { (result ≡ start_answer_on kind count first_epoch_0 first_epoch_1 state.old)
        × (state.new ≡ start_state_on kind count first_epoch_0 first_epoch_1 state.old) }
{
    if state.len() != CARD_BYTES {
        return if senders::is_no_start(kind, count) {
            4
        } else {
            9
        };
    }
    if senders::is_no_start(kind, count) {
        put_whole(&Card::empty(kinds::H4, 0, 0), state);
        return 4;
    }
    if !are_epochs(kind as u8, first_epoch_0, first_epoch_1) {
        return 8;
    }
    match Card::start(kind as u8, count, first_epoch_0 as u8, first_epoch_1 as u8) {
        Ok(card) => {
            put_whole(&card, state);
            0
        }
        Err(refusal) => refusal.number(),
    }
}

pub fn levelspruce_card_start(
    count: u32,
    first_epoch_0: u32,
    first_epoch_1: u32,
    state: &mut [u8],
) -> u8
    ensures { (result ≡ start_answer_on 0 count first_epoch_0 first_epoch_1 state.old)
        × (state.new ≡ start_state_on 0 count first_epoch_0 first_epoch_1 state.old) }
{
    start_by(kinds::H4 as u32, count, first_epoch_0, first_epoch_1, state)
}

pub fn levelspruce_card_start_as(
    kind: u32,
    count: u32,
    first_epoch_0: u32,
    first_epoch_1: u32,
    state: &mut [u8],
) -> u8
    ensures { (result ≡ start_answer_on kind count first_epoch_0 first_epoch_1 state.old)
        × (state.new ≡ start_state_on kind count first_epoch_0 first_epoch_1 state.old) }
{
    start_by(kind, count, first_epoch_0, first_epoch_1, state)
}

pub fn levelspruce_card_claim(state: &mut [u8], group: u32, slot: u32) -> u8
    ensures { (result ≡ call_answer_on true group (Claim slot) state.old)
        × (state.new ≡ call_state_on true group (Claim slot) state.old) }
{
    let first = refusal(state.len(), group);
    if first != 0 {
        return first;
    }
    let card = own_card(state, group);
    keep(card.claim(group, slot), group, state)
}

pub fn levelspruce_card_release(state: &mut [u8], group: u32, slot: u32) -> u8
    ensures { (result ≡ call_answer_on true group (Release slot) state.old)
        × (state.new ≡ call_state_on true group (Release slot) state.old) }
{
    let first = refusal(state.len(), group);
    if first != 0 {
        return first;
    }
    let card = own_card(state, group);
    keep(card.release(group, slot), group, state)
}

pub fn levelspruce_card_add(state: &mut [u8], group: u32, slot: u32) -> u8
    ensures { (result ≡ call_answer_on true group (AddSlot slot) state.old)
        × (state.new ≡ call_state_on true group (AddSlot slot) state.old) }
{
    let first = refusal(state.len(), group);
    if first != 0 {
        return first;
    }
    let card = own_card(state, group);
    keep(card.add(group, slot), group, state)
}

pub fn levelspruce_card_remove(state: &mut [u8], group: u32, slot: u32) -> u8
    ensures { (result ≡ call_answer_on true group (RemoveSlot slot) state.old)
        × (state.new ≡ call_state_on true group (RemoveSlot slot) state.old) }
{
    let first = refusal(state.len(), group);
    if first != 0 {
        return first;
    }
    let card = own_card(state, group);
    keep(card.remove(group, slot), group, state)
}

pub fn levelspruce_card_lapse(state: &mut [u8], group: u32) -> u8
    ensures { (result ≡ call_answer_on true group Lapse state.old)
        × (state.new ≡ call_state_on true group Lapse state.old) }
{
    let first = refusal(state.len(), group);
    if first != 0 {
        return first;
    }
    let card = own_card(state, group);
    keep(card.lapse(group), group, state)
}

pub fn levelspruce_card_report(
    state: &mut [u8],
    group: u32,
    epoch: u32,
    mst: u32,
    rs_ack: u32,
) -> u8
    ensures { (result ≡ call_answer_on (are_bytes epoch mst rs_ack) group (Report epoch mst rs_ack) state.old)
        × (state.new ≡ call_state_on (are_bytes epoch mst rs_ack) group (Report epoch mst rs_ack) state.old) }
{
    let first = refusal(state.len(), group);
    if first != 0 {
        return first;
    }
    if !senders::are_bytes(epoch, mst, rs_ack) {
        return 8;
    }
    let card = own_card(state, group);
    keep(
        card.report(group, epoch as u8, mst as u8, rs_ack as u8),
        group,
        state,
    )
}

pub fn levelspruce_card_start_epoch(
    state: &mut [u8],
    group: u32,
    gid: u32,
    mst: u32,
    rs_ack: u32,
) -> u8
    ensures { (result ≡ call_answer_on (are_bytes gid mst rs_ack) group (StartEpoch gid mst rs_ack) state.old)
        × (state.new ≡ call_state_on (are_bytes gid mst rs_ack) group (StartEpoch gid mst rs_ack) state.old) }
{
    let first = refusal(state.len(), group);
    if first != 0 {
        return first;
    }
    if !senders::are_bytes(gid, mst, rs_ack) {
        return 8;
    }
    let card = own_card(state, group);
    keep(
        card.start_epoch(group, gid as u8, mst as u8, rs_ack as u8),
        group,
        state,
    )
}

// The owner of a slot, 0 where there is no such slot.
fn owner_at(state: &[u8], slot: u32) -> u8
    requires { length state.now ≡ card_bytes }
    ensures { result ≡ owner_in (owners_in state.now) slot }
{
    if slot < 64 { state[slot as usize] } else { 0 }
}

// 1, then 14, of a slot whose owner is known.
fn slot_refusal(owner: u8, group: u32, count: u8, slot: u32) -> u8
    ensures { result ≡ slot_refusal owner group count slot }
{
    let mark = cards::mark_of(group);
    let size = ground::size_byte(count);
    if size as u32 <= slot {
        return 1;
    }
    if owner == mark { 0 } else { 14 }
}

// The packet of a slot, from its owner and the group's own part. To read the whole card for it would take four times as long as the sender's call.
fn packet_in(owner: u8, group: u32, part: &[u8], slot: u32, h4: &mut [u8]) -> u8
    requires { length part.now ≡ state_bytes }
    ensures { (result ≡ slot_packet_answer owner group (sender_of part.now) slot h4.old)
        × (h4.new ≡ slot_packet_bytes owner group (sender_of part.now) slot h4.old) }
{
    let sender = keeping::sender_of(part);
    let table = sender.table;
    let first = slot_refusal(owner, group, table.count, slot);
    if first != 0 {
        return first;
    }
    ground::number_told(sender.packet(slot, h4))
}

pub fn levelspruce_card_packet(state: &[u8], group: u32, slot: u32, h4: &mut [u8]) -> u8
    ensures { (result ≡ packet_answer_on state.now group slot h4.old)
        × (h4.new ≡ packet_bytes_on state.now group slot h4.old) }
{
    let first = refusal(state.len(), group);
    if first != 0 {
        return first;
    }
    let owner = owner_at(state, slot);
    if group == 0 {
        return packet_in(owner, group, &state[FIRST_PART..SECOND_PART], slot, h4);
    }
    packet_in(owner, group, &state[SECOND_PART..CARD_BYTES], slot, h4)
}

pub fn levelspruce_card_payload(
    state: &[u8],
    group: u32,
    slot: u32,
    p: u32,
    frame: &[u8],
    member: &mut [u8],
) -> u8
    ensures { (result ≡ payload_answer_on state.now group slot p frame.now member.old)
        × (member.new ≡ payload_bytes_on state.now group slot p frame.now member.old) }
{
    let first = refusal(state.len(), group);
    if first != 0 {
        return first;
    }
    let card = own_card(state, group);
    ground::number_told(card.payload(group, slot, p, frame, member))
}

pub fn levelspruce_card_board(state: &[u8], group: u32, board: &mut [u8]) -> u8
    ensures { (result ≡ shown_answer_on 130 state.now group board.old)
        × (board.new ≡ board_bytes_on state.now group board.old) }
{
    let first = refusal(state.len(), group);
    if first != 0 {
        return first;
    }
    if board.len() != BOARD_BYTES {
        return 9;
    }
    let card = own_card(state, group);
    match card.board(group) {
        Ok(shown) => {
            boards::put_board(shown, board);
            0
        }
        Err(refusal) => refusal.number(),
    }
}

pub fn levelspruce_card_board_going(state: &[u8], group: u32, board: &mut [u8]) -> u8
    ensures { (result ≡ shown_answer_on 130 state.now group board.old)
        × (board.new ≡ outgoing_bytes_on state.now group board.old) }
{
    let first = refusal(state.len(), group);
    if first != 0 {
        return first;
    }
    if board.len() != BOARD_BYTES {
        return 9;
    }
    let card = own_card(state, group);
    match card.outgoing(group) {
        Ok(shown) => {
            boards::put_board(shown, board);
            0
        }
        Err(refusal) => refusal.number(),
    }
}

pub fn levelspruce_card_ranks(state: &[u8], group: u32, ranks: &mut [u8]) -> u8
    ensures { (result ≡ shown_answer_on 68 state.now group ranks.old)
        × (ranks.new ≡ ranks_bytes_on state.now group ranks.old) }
{
    let first = refusal(state.len(), group);
    if first != 0 {
        return first;
    }
    if ranks.len() != RANKS_BYTES {
        return 9;
    }
    let card = own_card(state, group);
    match card.ranks(group) {
        Ok(shown) => {
            boards::put_ranks(shown, ranks);
            0
        }
        Err(refusal) => refusal.number(),
    }
}

fn put_owned(owned: [u8; 64], out: &mut [u8])
    requires { length out.old ≡ 64 }
    ensures { out.new ≡ owned }
{
    keeping::put_bytes(&owned, 0, out);
}

pub fn levelspruce_card_owned(state: &[u8], group: u32, owned: &mut [u8]) -> u8
    ensures { (result ≡ shown_answer_on 64 state.now group owned.old)
        × (owned.new ≡ owned_bytes_on state.now group owned.old) }
{
    let first = refusal(state.len(), group);
    if first != 0 {
        return first;
    }
    if owned.len() != 64 {
        return 9;
    }
    let card = own_card(state, group);
    match card.owned(group) {
        Ok(shown) => {
            put_owned(shown, owned);
            0
        }
        Err(refusal) => refusal.number(),
    }
}
