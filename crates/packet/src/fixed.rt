// A fixed group's packet (request 2026-12): MFI2, SQ and the word FIXED, and no CRC.
ghost use Rattle.std.specs.Prelude.{◌≡◌};
ghost use Rattle.packet.specs.Fixed.{fixed_fields, fixed_nibbles, fixed_ruling_of, read_fixed_answer, read_fixed_nibbles, write_fixed_answer, write_fixed_bytes};

use crate::layout::Fields;
use crate::reader::Unread;
use crate::ruling::Ruling;
use crate::words::Word;
use crate::writer::Unwritten;
use crate::{layout, reader, ruling};

fn fixed_nibbles(epoch: u8, sq: u8) -> [u8; 16]
    ensures { result ≡ fixed_nibbles epoch sq }
{
    [
        0,
        0,
        0,
        0,
        0,
        0,
        sq / 16,
        sq % 16,
        epoch / 16,
        epoch % 16,
        Word::FIXED.0,
        0,
        0,
        0,
        0,
        0,
    ]
}

// Epoch and SQ are 32 bits wide, so that 256 is refused and not cut down to 0.
pub fn write_fixed(epoch: u32, sq: u32, h4: &mut [u8]) -> Result<(), Unwritten>
    ensures { (result ≡ write_fixed_answer epoch sq h4.old) × (h4.new ≡ write_fixed_bytes epoch sq h4.old) }
{
    if h4.len() != 16 {
        return Err(Unwritten::Length);
    }
    let Ok(epoch) = u8::try_from(epoch) else {
        return Err(Unwritten::Field);
    };
    let Ok(sq) = u8::try_from(sq) else {
        return Err(Unwritten::Field);
    };
    h4.copy_from_slice(&layout::h4_of(fixed_nibbles(epoch, sq)));
    Ok(())
}

fn fixed_fields(epoch: u8, sq: u8) -> Fields
    ensures { result ≡ fixed_fields epoch sq }
{
    Fields {
        epoch,
        word: Word::FIXED,
        gid: 0,
        mst: 0,
        rs_ack: 0,
        sq,
        reserved: 0,
    }
}

// Sixteen nibbles read, each in the low four bits of its byte.
pub fn read_fixed_nibbles(nibbles: [u8; 16]) -> Result<Fields, Unread>
    ensures { result ≡ read_fixed_nibbles nibbles }
{
    if nibbles[10] % 16 != Word::FIXED.0 {
        return Err(Unread::Unassigned);
    }
    let epoch = layout::byte_of(nibbles[8], nibbles[9]);
    let sq = layout::byte_of(nibbles[6], nibbles[7]);
    Ok(fixed_fields(epoch, sq))
}

// Sixteen H4 bytes read.
pub fn read_fixed(h4: &[u8]) -> Result<Fields, Unread>
    ensures { result ≡ read_fixed_answer h4.now }
{
    if h4.len() != 16 {
        return Err(Unread::Length);
    }
    read_fixed_nibbles(reader::highs_of(h4))
}

// A packet read for what it rules. Whether it is of the receiver's own epoch is the step rule's to judge.
pub fn fixed_ruling_of(nibbles: [u8; 16]) -> Ruling
    ensures { result ≡ fixed_ruling_of nibbles }
{
    ruling::ruling_by(read_fixed_nibbles(nibbles))
}
