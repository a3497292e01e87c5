// The card and its calls. For each the refusals are in the order 1, 14, 15, 3, 2; those of the sender follow as they are.
ghost use Rattle.std.specs.Prelude.{◌≡◌, length, replicate};
ghost use Rattle.std.specs.Result.{result_unwrap_or};
ghost use Rattle.sender.specs.Board.{board_of};
ghost use Rattle.sender.specs.Epochs.{ranks_of};
ghost use Rattle.cards.specs.Answers.{board_told, only_told, owned_told, ranks_told, told};
ghost use Rattle.cards.specs.Calls.{outcome_of};
ghost use Rattle.cards.specs.Calls.Call.{Claim, Release, AddSlot, RemoveSlot, Report, Lapse, StartEpoch};
ghost use Rattle.cards.specs.Commands.{start_of};
ghost use Rattle.cards.specs.Parts.{empty_sender};
ghost use Rattle.cards.specs.Readings.{board_shown, outgoing_shown, owned_shown, packet_answer, packet_bytes, payload_answer, payload_bytes, ranks_shown};

use crate::refusals::Refusal;
use crate::{owners, parts, refusals};
use sender::{Board, Ranks, Sender};

// A whole sender for each group, with a table of all slots.
#[derive(Clone, Copy)]
pub struct Card {
    pub owners: [u8; 64],
    pub first: Sender,
    pub second: Sender,
}

impl Card {
    // No slot owned and two empty groups, which a refused start leaves.
    pub fn empty(kind: u8, epoch_0: u8, epoch_1: u8) -> Card
        ensures { result ≡ (start_of kind 0 epoch_0 epoch_1).card }
    {
        Card {
            owners: [0; 64],
            first: Sender::empty(kind, epoch_0),
            second: Sender::empty(kind, epoch_1),
        }
    }

    // epoch_0, epoch_1: the number of each group's first epoch.
    pub fn start(kind: u8, count: u32, epoch_0: u8, epoch_1: u8) -> Result<Card, Refusal>
        ensures told { result ≡ told (start_of kind count epoch_0 epoch_1) }
        ensures left { result_unwrap_or result (start_of kind 0 epoch_0 epoch_1).card ≡ (start_of kind count epoch_0 epoch_1).card }
    {
        Ok(Card {
            owners: [0; 64],
            first: Sender::start(kind, count, epoch_0)?,
            second: Sender::start(kind, count, epoch_1)?,
        })
    }

    // 1, 14.
    pub fn claim(self, group: u32, slot: u32) -> Result<Card, Refusal>
        ensures told { result ≡ told (outcome_of self group (Claim slot)) }
        ensures left { result_unwrap_or result self ≡ (outcome_of self group (Claim slot)).card }
    {
        parts::check_slot(self, group, slot)?;
        if owners::has_owner(self.owners, slot) {
            return Err(Refusal::Owned);
        }
        Ok(parts::mark(self, slot, owners::mark_of(group)))
    }

    // 1, 14, 15.
    pub fn release(self, group: u32, slot: u32) -> Result<Card, Refusal>
        ensures told { result ≡ told (outcome_of self group (Release slot)) }
        ensures left { result_unwrap_or result self ≡ (outcome_of self group (Release slot)).card }
    {
        parts::check_own(self, group, slot)?;
        if parts::is_used(self, group, slot) {
            return Err(Refusal::Used);
        }
        Ok(parts::mark(self, slot, 0))
    }

    // 1, 14, 3, 2.
    pub fn add(self, group: u32, slot: u32) -> Result<Card, Refusal>
        ensures told { result ≡ told (outcome_of self group (AddSlot slot)) }
        ensures left { result_unwrap_or result self ≡ (outcome_of self group (AddSlot slot)).card }
    {
        parts::check_own(self, group, slot)?;
        let sender = parts::sender_of(self, group).add(slot)?;
        Ok(parts::with_sender(self, group, sender))
    }

    // 1, 14, 3, 2.
    pub fn remove(self, group: u32, slot: u32) -> Result<Card, Refusal>
        ensures told { result ≡ told (outcome_of self group (RemoveSlot slot)) }
        ensures left { result_unwrap_or result self ≡ (outcome_of self group (RemoveSlot slot)).card }
    {
        parts::check_own(self, group, slot)?;
        let sender = parts::sender_of(self, group).remove(slot)?;
        Ok(parts::with_sender(self, group, sender))
    }

    pub fn report(self, group: u32, epoch: u8, mst: u8, rs_ack: u8) -> Result<Card, Refusal>
        ensures told { result ≡ told (outcome_of self group (Report epoch mst rs_ack)) }
        ensures left { result_unwrap_or result self ≡ (outcome_of self group (Report epoch mst rs_ack)).card }
    {
        refusals::check_group(group)?;
        let sender = parts::sender_of(self, group).report(epoch, mst, rs_ack);
        Ok(parts::with_sender(self, group, sender))
    }

    pub fn lapse(self, group: u32) -> Result<Card, Refusal>
        ensures told { result ≡ told (outcome_of self group Lapse) }
        ensures left { result_unwrap_or result self ≡ (outcome_of self group Lapse).card }
    {
        refusals::check_group(group)?;
        let sender = parts::sender_of(self, group).lapse()?;
        Ok(parts::with_sender(self, group, sender))
    }

    pub fn start_epoch(self, group: u32, gid: u8, mst: u8, rs_ack: u8) -> Result<Card, Refusal>
        ensures told { result ≡ told (outcome_of self group (StartEpoch gid mst rs_ack)) }
        ensures left { result_unwrap_or result self ≡ (outcome_of self group (StartEpoch gid mst rs_ack)).card }
    {
        refusals::check_group(group)?;
        let sender = parts::sender_of(self, group).start_epoch(gid, mst, rs_ack)?;
        Ok(parts::with_sender(self, group, sender))
    }

    // 1, 14, 9, 2.
    pub fn packet(self, group: u32, slot: u32, h4: &mut [u8]) -> Result<(), Refusal>
        ensures { (result ≡ only_told (packet_answer self group slot h4.old)) × (h4.new ≡ packet_bytes self group slot h4.old) }
    {
        parts::check_own(self, group, slot)?;
        parts::sender_of(self, group).packet(slot, h4)?;
        Ok(())
    }

    // 1, 14, 4, 9, 2.
    pub fn payload(
        self,
        group: u32,
        slot: u32,
        p: u32,
        frame: &[u8],
        member: &mut [u8],
    ) -> Result<(), Refusal>
        ensures { (result ≡ only_told (payload_answer self group slot p (length frame.now) (length member.old)))
            × (member.new ≡ payload_bytes self group slot p frame.now member.old) }
    {
        parts::check_own(self, group, slot)?;
        parts::sender_of(self, group).payload(slot, p, frame, member)?;
        Ok(())
    }

    // Of a group other than the two nothing is shown: as of `Sender::empty(0, 0)`, and it owns no slot.

    // The table now, of all slots.
    pub fn board(self, group: u32) -> Result<Board, Refusal>
        ensures told { result ≡ board_told (board_shown self group) }
        ensures left { result_unwrap_or result (board_of empty_sender.table) ≡ (board_shown self group).board }
    {
        refusals::check_group(group)?;
        let sender = parts::sender_of(self, group);
        Ok(sender::board_of(sender.table))
    }

    // The board that goes out in this epoch's packets.
    pub fn outgoing(self, group: u32) -> Result<Board, Refusal>
        ensures told { result ≡ board_told (outgoing_shown self group) }
        ensures left { result_unwrap_or result empty_sender.outgoing ≡ (outgoing_shown self group).board }
    {
        refusals::check_group(group)?;
        Ok(parts::sender_of(self, group).outgoing)
    }

    pub fn ranks(self, group: u32) -> Result<Ranks, Refusal>
        ensures told { result ≡ ranks_told (ranks_shown self group) }
        ensures left { result_unwrap_or result (ranks_of empty_sender) ≡ (ranks_shown self group).ranks }
    {
        refusals::check_group(group)?;
        Ok(parts::sender_of(self, group).ranks())
    }

    // Which slots the group owns, a byte a slot.
    pub fn owned(self, group: u32) -> Result<[u8; 64], Refusal>
        ensures told { result ≡ owned_told (owned_shown self group) }
        ensures left { result_unwrap_or result (replicate 64 0) ≡ (owned_shown self group).owned }
    {
        refusals::check_group(group)?;
        Ok(owners::owned_bytes(self.owners, group))
    }
}
