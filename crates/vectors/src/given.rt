// How a packet is written and read.
use packet::{Fields, Word};

// The H4 bytes that a packet is written as; zeros where it is refused.
pub(crate) fn written(fields: Fields) -> [u8; 16] {
    let mut h4 = [0u8; 16];
    let _ = packet::write(fields, &mut h4);
    h4
}

// The fields of a packet, or fields that none has where it is refused.
pub(crate) fn read(h4: [u8; 16]) -> Fields {
    packet::read(&h4).unwrap_or(Fields {
        epoch: 0,
        word: Word::FIXED,
        gid: 0,
        mst: 0,
        rs_ack: 0,
        sq: 0,
        reserved: 0,
    })
}

pub(crate) fn is_read_as(h4: [u8; 16], fields: Fields) -> bool {
    read(h4) == fields
}
