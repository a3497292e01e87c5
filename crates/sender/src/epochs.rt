// The start of an epoch (01, 'Taking effect'): 'The packets of one epoch rule the payload of the next epoch'; 'The sender writes all packets of an epoch from one state of the table, that at the epoch's start.'
ghost use Rattle.std.specs.Prelude.{◌≡◌, ◌<◌, length};
ghost use Rattle.std.specs.Result.{result_unwrap_or};
ghost use Rattle.sender.specs.Answers.{only_told, sender_told};
ghost use Rattle.sender.specs.Calls.Call.{AddSlot, RemoveSlot, Report, Lapse};
ghost use Rattle.sender.specs.Epochs.{begin_of, fresh_sender, packet_answer, packet_bytes, packet_fields, payload_answer, payload_bytes, ranks_of, sender_outcome_of, started_epoch};
ghost use Rattle.sender.specs.Epochs.SenderCall.{OnTable, StartEpoch};
ghost use Rattle.sender.specs.Outcomes.{spread_early, spread_told};

use crate::board::Board;
use crate::ranks::Ranks;
use crate::refusals::Refusal;
use crate::table::Table;
use crate::{board, commands, ranks, reports, table};
use packet::{Fields, kinds};

// outgoing: what goes out in this epoch's packets. ruling: what went out in the packets before, which rules this epoch's payload.
// Before the first epoch starts, epoch is the number it will have.
#[derive(Clone, Copy)]
pub struct Sender {
    pub table: Table,
    pub outgoing: Board,
    pub ruling: Board,
    pub epoch: u8,
    pub begun: bool,
    pub gid: u8,
    pub mst: u8,
    pub rs_ack: u8,
}

fn fresh_sender(table: Table, epoch: u8) -> Sender
    ensures { result ≡ fresh_sender table epoch }
{
    let board = board::board_of(table);
    Sender {
        table,
        outgoing: board,
        ruling: board,
        epoch,
        begun: false,
        gid: 0,
        mst: 0,
        rs_ack: 0,
    }
}

fn epoch_started(sender: Sender) -> u8
    ensures { result ≡ started_epoch sender }
{
    if sender.begun {
        return kinds::next_epoch(sender.table.kind, sender.epoch);
    }
    sender.epoch
}

fn spread_told(answer: payload::Answer) -> Result<(), Refusal>
    ensures { result ≡ only_told (spread_told answer) }
{
    match answer {
        payload::Answer::Done => Ok(()),
        payload::Answer::Range => Err(Refusal::OutOfRange),
        payload::Answer::Length => Err(Refusal::Length),
    }
}

// Before the first epoch starts.
fn spread_early(answer: payload::Answer) -> Refusal
    ensures { Err result ≡ only_told (spread_early answer) }
{
    match answer {
        payload::Answer::Done => Refusal::NotAllowed,
        payload::Answer::Range => Refusal::OutOfRange,
        payload::Answer::Length => Refusal::Length,
    }
}

fn packet_fields(sender: Sender, at: usize) -> Fields
    requires { at < 64 }
    ensures { result ≡ packet_fields sender at }
{
    let row = sender.outgoing.rows[at];
    Fields {
        epoch: sender.epoch,
        word: row.word,
        gid: sender.gid,
        mst: sender.mst,
        rs_ack: sender.rs_ack,
        sq: row.number,
        reserved: 0,
    }
}

impl Sender {
    // With no slot, which a refused start leaves: epoch is the number that the first epoch would have.
    pub fn empty(kind: u8, epoch: u8) -> Sender
        ensures { result ≡ (begin_of kind 0 epoch).sender }
    {
        fresh_sender(commands::empty(kind), epoch)
    }

    // epoch: the first epoch's number.
    pub fn start(kind: u8, count: u32, epoch: u8) -> Result<Sender, Refusal>
        ensures told { result ≡ sender_told (begin_of kind count epoch) }
        ensures left { result_unwrap_or result (begin_of kind 0 epoch).sender ≡ (begin_of kind count epoch).sender }
    {
        let table = commands::start(kind, count)?;
        Ok(fresh_sender(table, epoch))
    }

    pub fn add(self, slot: u32) -> Result<Sender, Refusal>
        ensures told { result ≡ sender_told (sender_outcome_of self (OnTable (AddSlot slot))) }
        ensures left { result_unwrap_or result self ≡ (sender_outcome_of self (OnTable (AddSlot slot))).sender }
    {
        let table = commands::add(self.table, slot)?;
        Ok(Sender { table, ..self })
    }

    pub fn remove(self, slot: u32) -> Result<Sender, Refusal>
        ensures told { result ≡ sender_told (sender_outcome_of self (OnTable (RemoveSlot slot))) }
        ensures left { result_unwrap_or result self ≡ (sender_outcome_of self (OnTable (RemoveSlot slot))).sender }
    {
        let table = commands::remove(self.table, slot)?;
        Ok(Sender { table, ..self })
    }

    // Never refused.
    pub fn report(self, epoch: u8, mst: u8, rs_ack: u8) -> Sender
        ensures { result ≡ (sender_outcome_of self (OnTable (Report epoch mst rs_ack))).sender }
    {
        Sender {
            table: reports::report(self.table, epoch, mst, rs_ack),
            ..self
        }
    }

    pub fn lapse(self) -> Result<Sender, Refusal>
        ensures told { result ≡ sender_told (sender_outcome_of self (OnTable Lapse)) }
        ensures left { result_unwrap_or result self ≡ (sender_outcome_of self (OnTable Lapse)).sender }
    {
        let table = commands::lapse(self.table)?;
        Ok(Sender { table, ..self })
    }

    pub fn start_epoch(self, gid: u8, mst: u8, rs_ack: u8) -> Result<Sender, Refusal>
        ensures told { result ≡ sender_told (sender_outcome_of self (StartEpoch gid mst rs_ack)) }
        ensures left { result_unwrap_or result self ≡ (sender_outcome_of self (StartEpoch gid mst rs_ack)).sender }
    {
        if gid >= 2 || rs_ack >= 2 {
            return Err(Refusal::Field);
        }
        Ok(Sender {
            table: self.table,
            outgoing: board::board_of(self.table),
            ruling: self.outgoing,
            epoch: epoch_started(self),
            begun: true,
            gid,
            mst,
            rs_ack,
        })
    }

    // The packet of a slot in this epoch: 1, 9, 2.
    pub fn packet(self, slot: u32, h4: &mut [u8]) -> Result<(), Refusal>
        ensures { (result ≡ only_told (packet_answer self slot h4.old)) × (h4.new ≡ packet_bytes self slot h4.old) }
    {
        let at = slot as usize;
        if at >= table::size(self.table.count) {
            return Err(Refusal::NoSlot);
        }
        if h4.len() != kinds::epoch_frames(self.table.kind) as usize {
            return Err(Refusal::Length);
        }
        if !self.begun {
            return Err(Refusal::NotAllowed);
        }
        packet::write_by(self.table.kind, packet_fields(self, at), h4)?;
        Ok(())
    }

    // The payload of a slot in a frame of this epoch: 1, 4, 9, 2. Slots with no rank send zeros. VC-12 has one P alone.
    pub fn payload(self, slot: u32, p: u32, frame: &[u8], member: &mut [u8]) -> Result<(), Refusal>
        ensures { (result ≡ only_told (payload_answer self slot p (length frame.now) (length member.old)))
            × (member.new ≡ payload_bytes self slot p frame.now member.old) }
    {
        let at = slot as usize;
        if at >= table::size(self.table.count) {
            return Err(Refusal::NoSlot);
        }
        if !kinds::is_payload(self.table.kind, p) {
            return Err(Refusal::OutOfRange);
        }
        let rows = self.ruling.rows;
        let n = table::size(self.ruling.count);
        let x = ranks::carriers(&rows[..n]) as usize;
        if !self.begun {
            let answer = payload::one_answer(x, p as usize, frame.len(), member.len());
            return Err(spread_early(answer));
        }
        let rank = ranks::rank_at(rows, n, at) as usize;
        spread_told(payload::spread_one(x, p as usize, rank, frame, member))
    }

    // This epoch's number, X and each slot's rank.
    pub fn ranks(self) -> Ranks
        ensures { result ≡ ranks_of self }
    {
        let n = table::size(self.ruling.count);
        Ranks {
            ranks: ranks::ranks_in(self.ruling.rows, n),
            count: n as u8,
            epoch: self.epoch,
            x: ranks::carriers(&self.ruling.rows[..n]),
            begun: self.begun,
        }
    }
}
