// A link to the receiver: frames with a packet's H4 bytes and with two bytes of payload that tell port, place and tag.
use crate::given;
use packet::kinds::H4;
use packet::{Fields, Word, kinds};

// P.
pub(crate) const PAYLOAD: u32 = 2;

// What a port sends in an epoch.
#[derive(Clone, Copy)]
pub(crate) struct Sent {
    pub word: Word,
    pub number: u8,
    // whether one bit of the CRC is wrong
    pub damaged: bool,
    // whether the frames come flagged
    pub failed: bool,
}

fn h4_at(sent: Sent, tag: u16) -> u8 {
    let word = sent.word;
    let h4 = given::written(Fields {
        epoch: kinds::epoch_of(H4, tag),
        word,
        gid: 0,
        mst: 255,
        rs_ack: 0,
        sq: sent.number,
        reserved: 0,
    });
    let place = kinds::place_of(H4, tag) % 16;
    let byte = h4[place as usize];
    if sent.damaged & (place == 15) {
        return byte ^ 16;
    }
    byte
}

fn fetch(state: &mut [[u8; 16]], store: &mut [u8], out: &mut [u8], report: &mut [u8]) {
    receiver::fetch(state, store, out, report);
}

// The rows and the store that the receiver is lent.
#[derive(Drop)]
pub(crate) struct Lent<'a> {
    pub state: &'a mut [[u8; 16]],
    pub store: &'a mut [u8],
}

impl Lent<'_> {
    // A port's frame with a tag: the answer.
    pub(crate) fn frame(&mut self, port: u8, sent: Sent, tag: u16) -> u8 {
        let payload = [
            port % 16 * 16 + kinds::place_of(H4, tag) % 16,
            ((tag % 256 + port as u16) % 256) as u8,
        ];
        receiver::frame(
            self.state,
            port as u32,
            sent.failed,
            h4_at(sent, tag),
            &payload,
            self.store,
        )
    }

    // The oldest epoch's report.
    pub(crate) fn fetch(&mut self, out: &mut [u8], report: &mut [u8]) {
        fetch(self.state, self.store, out, report);
    }

    // The reply of an epoch: MST, then RS-Ack.
    pub(crate) fn reply(&self, epoch: u8) -> [u8; 2] {
        let mut out = [0u8; 2];
        receiver::reply(self.state, epoch, &mut out);
        out
    }
}

pub(crate) fn tag_after(tag: u16, by: u16) -> u16 {
    (tag % 4096 + by % 4096) % 4096
}
