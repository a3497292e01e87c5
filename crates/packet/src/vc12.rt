// A VC-12 packet (request 2026-01): 32 bits, one a frame, here as one number, the first bit highest.
ghost use Rattle.std.specs.Prelude.{◌≡◌, ◌<◌, length};
ghost use Rattle.ground.specs.Bits.{bits, number, odd};
ghost use Rattle.ground.specs.Polynomial.{bring};
ghost use Rattle.packet.specs.Bounds.{Vc12Bounds};
ghost use Rattle.packet.specs.Laws.Vc12.{left_of};
ghost use Rattle.packet.specs.Vc12.{frame_byte, lowest_of, read_vc12_answer, read_vc12_bits, read_vc12_row, row_bits, vc12_bits, vc12_bytes, vc12_data, vc12_divisor, vc12_fields, write_vc12_answer, write_vc12_bytes};

use crate::layout::Fields;
use crate::reader::Unread;
use crate::words::Word;
use crate::writer::Unwritten;
use crate::{reader, writer};

// One bit more of a division by x^3+x+1.
fn brought(left: u8, bit: u8) -> u8
    ensures { result ≡ number (bring vc12_divisor (bits 3 left) (odd bit)) }
{
    let shifted = left % 4 * 2 + bit % 2;
    if left / 4 % 2 == 1 {
        return shifted ^ 3;
    }
    shifted
}

// What the division of all 32 bits leaves: 0 of a packet whose CRC is right, and the CRC itself where three zeros stand in its place.
fn left_of(number: u32) -> u8
    ensures { result ≡ left_of number }
{
    let mut left = 0;
    for k in (0..32u32).rev() {
        left = brought(left, ((number >> k) % 2) as u8);
    }
    left
}

fn fields_of(number: u32) -> Fields
    ensures { result ≡ vc12_fields (bits 32 number) }
{
    Fields {
        epoch: (number >> 27) as u8,
        word: Word(((number >> 17) % 16) as u8),
        gid: ((number >> 16) % 2) as u8,
        mst: ((number >> 3) % 256) as u8,
        rs_ack: ((number >> 11) % 2) as u8,
        sq: ((number >> 21) % 64) as u8,
        reserved: (number >> 12) % 16,
    }
}

fn read_number(number: u32) -> Result<Fields, Unread>
    ensures { result ≡ read_vc12_bits (bits 32 number) }
{
    if left_of(number) != 0 {
        return Err(Unread::Crc);
    }
    reader::by_word(fields_of(number))
}

fn number_of(frames: &[u8]) -> u32
    requires { length frames.now ≡ 32 }
    ensures { result ≡ number (lowest_of frames.now) }
{
    let mut number = 0;
    for frame in frames {
        number = number * 2 + (*frame % 2) as u32;
    }
    number
}

// The bytes of 32 frames read.
pub fn read_vc12(frames: &[u8]) -> Result<Fields, Unread>
    ensures { result ≡ read_vc12_answer frames.now }
{
    if frames.len() != 32 {
        return Err(Unread::Length);
    }
    read_number(number_of(frames))
}

fn number_in(row: [u8; 16]) -> u32
    ensures { result ≡ number (row_bits row) }
{
    let mut number = 0;
    for entry in row {
        number = number * 4 + (entry % 4) as u32;
    }
    number
}

// Sixteen entries read, each with two bits in its lowest.
pub fn read_vc12_row(row: [u8; 16]) -> Result<Fields, Unread>
    ensures { result ≡ read_vc12_row row }
{
    read_number(number_in(row))
}

fn data_of(fields: Fields) -> u32
    requires { Vc12Bounds fields }
    ensures { result ≡ number (vc12_data fields) }
{
    (((((fields.epoch as u32 * 64 + fields.sq as u32) * 16 + fields.word.0 as u32) * 2
        + fields.gid as u32)
        * 16
        + fields.reserved)
        * 2
        + fields.rs_ack as u32)
        * 256
        + fields.mst as u32
}

fn packet_of(fields: Fields) -> u32
    requires { Vc12Bounds fields }
    ensures { bits 32 result ≡ vc12_bits fields }
{
    let data = data_of(fields);
    data * 8 + left_of(data * 8) as u32
}

fn frame_byte(number: u32, place: u32) -> u8
    requires { place < 32 }
    ensures { result ≡ frame_byte (bits 32 number) place }
{
    let bit = ((number >> (31 - place)) % 2) as u8;
    if place == 0 {
        return 2 + bit;
    }
    bit
}

fn put_bytes(number: u32, frames: &mut [u8])
    requires { length frames.old ≡ 32 }
    ensures { frames.new ≡ vc12_bytes (bits 32 number) }
{
    for (place, frame) in frames.iter_mut().enumerate() {
        *frame = frame_byte(number, place as u32);
    }
}

// The bytes of 32 frames: the first says the start.
pub fn write_vc12(fields: Fields, frames: &mut [u8]) -> Result<(), Unwritten>
    ensures { (result ≡ write_vc12_answer fields frames.old) × (frames.new ≡ write_vc12_bytes fields frames.old) }
{
    if frames.len() != 32 {
        return Err(Unwritten::Length);
    }
    if !writer::fits_within(fields, 32, 64, 16) {
        return Err(Unwritten::Field);
    }
    put_bytes(packet_of(fields), frames);
    Ok(())
}
