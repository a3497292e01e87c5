// A group's part of the card: picked out, put back, and what is asked of a slot before the sender's own calls.
ghost use Rattle.std.specs.Prelude.{◌≡◌, ◌<◌, OnOk};
ghost use Rattle.sender.specs.Table.{slot_count};
ghost use Rattle.cards.specs.Answers.{only_told};
ghost use Rattle.cards.specs.Parts.{is_slot, is_used, marked, own_answer, sender_of, slot_answer, with_sender};

use crate::card::Card;
use crate::owners;
use crate::refusals::Refusal;
use sender::Sender;

// The group's own sender.
pub fn sender_of(card: Card, group: u32) -> Sender
    ensures { result ≡ sender_of card group }
{
    if group == 0 { card.first } else { card.second }
}

pub(crate) fn with_sender(card: Card, group: u32, sender: Sender) -> Card
    ensures { result ≡ with_sender card group sender }
{
    if group == 0 {
        Card {
            first: sender,
            ..card
        }
    } else {
        Card {
            second: sender,
            ..card
        }
    }
}

// How many slots there are: a count above 64, which no call returns, is taken as 64.
fn size(count: u8) -> u32
    ensures { result ≡ slot_count count }
{
    u32::from(ground::size_byte(count))
}

// 1: 'a group other than the two', or a slot not below that group's own count.
fn is_slot(card: Card, group: u32, slot: u32) -> bool
    ensures { result ≡ is_slot card group slot }
{
    group < 2 && slot < size(sender_of(card, group).table.count)
}

// Not IDLE in the group's table.
pub(crate) fn is_used(card: Card, group: u32, slot: u32) -> bool
    requires { slot < 64 }
    ensures { result ≡ is_used card group slot }
{
    let sender = sender_of(card, group);
    sender::is_member(sender.table.slots[slot as usize].state)
}

// 1.
pub(crate) fn check_slot(card: Card, group: u32, slot: u32) -> Result<(), Refusal>
    ensures value { result ≡ only_told (slot_answer card group slot) }
    ensures within { OnOk result (slot < 64) }
{
    if is_slot(card, group, slot) {
        Ok(())
    } else {
        Err(Refusal::NoSlot)
    }
}

// 1, 14.
pub(crate) fn check_own(card: Card, group: u32, slot: u32) -> Result<(), Refusal>
    ensures value { result ≡ only_told (own_answer card group slot) }
    ensures within { OnOk result (slot < 64) }
{
    check_slot(card, group, slot)?;
    if owners::is_marked(card.owners, group, slot) {
        Ok(())
    } else {
        Err(Refusal::Owned)
    }
}

pub(crate) fn mark(card: Card, slot: u32, owner: u8) -> Card
    requires { slot < 64 }
    ensures { result ≡ (marked card slot owner).card }
{
    Card {
        owners: owners::with_owner(card.owners, slot, owner),
        ..card
    }
}
