// The packet written and read for C. Fields come as 32 bits, so that what is too large is refused by its number and not cut off.
ghost use Rattle.std.specs.Prelude.{◌≡◌, length};
ghost use Rattle.c_face.specs.Packets.{are_bytes, read_answer_c, read_fields_c, read_fixed_answer_c, read_fixed_fields_c, read_vc12_answer_c, read_vc12_fields_c, sent_answer_c, sent_bytes_c, values_in, values_or, write_answer_c, write_bytes_c, write_fixed_answer_c, write_refusal, write_vc12_answer_c, write_vc12_bytes_c};
ghost use Rattle.packet.specs.Fixed.{write_fixed_bytes};
ghost use Rattle.packet.specs.Reading.{reading_number};

use ground::Refusal;
use packet::{Fields, Unread, Word, kinds};

fn are_bytes(epoch: u32, word: u32, gid: u32, mst: u32, rs_ack: u32, sq: u32) -> bool
    ensures { result ≡ are_bytes epoch word gid mst rs_ack sq }
{
    (epoch < 256) & (word < 256) & (gid < 256) & (mst < 256) & (rs_ack < 256) & (sq < 256)
}

fn write_refusal(kind: u8, length: usize) -> u8
    ensures { result ≡ write_refusal kind length }
{
    let frames = kinds::epoch_frames(kind);
    if length == frames as usize { 8 } else { 9 }
}

// A packet of a kind, of any 32 bits as fields.
fn put_packet(
    kind: u8,
    epoch: u32,
    word: u32,
    gid: u32,
    mst: u32,
    rs_ack: u32,
    sq: u32,
    reserved: u32,
    frames: &mut [u8],
) -> u8
    ensures { (result ≡ sent_answer_c kind epoch word gid mst rs_ack sq reserved frames.old)
        × (frames.new ≡ sent_bytes_c kind epoch word gid mst rs_ack sq reserved frames.old) }
{
    if !are_bytes(epoch, word, gid, mst, rs_ack, sq) {
        return write_refusal(kind, frames.len());
    }
    let fields = Fields {
        epoch: epoch as u8,
        word: Word(word as u8),
        gid: gid as u8,
        mst: mst as u8,
        rs_ack: rs_ack as u8,
        sq: sq as u8,
        reserved,
    };
    ground::number_told(packet::write_by(kind, fields, frames))
}

pub fn levelspruce_packet_write(
    epoch: u32,
    word: u32,
    gid: u32,
    mst: u32,
    rs_ack: u32,
    sq: u32,
    reserved: u32,
    h4: &mut [u8],
) -> u8
    ensures { (result ≡ write_answer_c epoch word gid mst rs_ack sq reserved h4.old)
        × (h4.new ≡ write_bytes_c epoch word gid mst rs_ack sq reserved h4.old) }
{
    put_packet(kinds::H4, epoch, word, gid, mst, rs_ack, sq, reserved, h4)
}

pub fn levelspruce_packet_write_vc12(
    epoch: u32,
    word: u32,
    gid: u32,
    mst: u32,
    rs_ack: u32,
    sq: u32,
    reserved: u32,
    bits: &mut [u8],
) -> u8
    ensures { (result ≡ write_vc12_answer_c epoch word gid mst rs_ack sq reserved bits.old)
        × (bits.new ≡ write_vc12_bytes_c epoch word gid mst rs_ack sq reserved bits.old) }
{
    put_packet(
        kinds::VC12,
        epoch,
        word,
        gid,
        mst,
        rs_ack,
        sq,
        reserved,
        bits,
    )
}

fn put_values(values: Fields, fields: &mut [u8])
    requires { length fields.old ≡ 10 }
    ensures { fields.new ≡ values_in values }
{
    let word = values.word;
    let reserved = values.reserved;
    let image = [
        values.epoch,
        word.0,
        values.gid,
        values.mst,
        values.rs_ack,
        values.sq,
        (reserved / 16777216) as u8,
        (reserved / 65536 % 256) as u8,
        (reserved / 256 % 256) as u8,
        (reserved % 256) as u8,
    ];
    fields.copy_from_slice(&image);
}

// A reading by its number. Under 0 its values go into the lent bytes.
fn put_reading(reading: Result<Fields, Unread>, fields: &mut [u8]) -> u8
    requires { length fields.old ≡ 10 }
    ensures { (result ≡ reading_number reading) × (fields.new ≡ values_or reading fields.old) }
{
    match reading {
        Ok(values) => {
            put_values(values, fields);
            0
        }
        Err(unread) => unread.number(),
    }
}

pub fn levelspruce_packet_read(h4: &[u8], fields: &mut [u8]) -> u8
    ensures { (result ≡ read_answer_c h4.now fields.old)
        × (fields.new ≡ read_fields_c h4.now fields.old) }
{
    if fields.len() != 10 {
        return 9;
    }
    let reading = packet::read(h4);
    put_reading(reading, fields)
}

pub fn levelspruce_packet_write_fixed(epoch: u32, sq: u32, h4: &mut [u8]) -> u8
    ensures { (result ≡ write_fixed_answer_c epoch sq h4.old)
        × (h4.new ≡ write_fixed_bytes epoch sq h4.old) }
{
    ground::number_told(packet::write_fixed(epoch, sq, h4))
}

pub fn levelspruce_packet_read_fixed(h4: &[u8], fields: &mut [u8]) -> u8
    ensures { (result ≡ read_fixed_answer_c h4.now fields.old)
        × (fields.new ≡ read_fixed_fields_c h4.now fields.old) }
{
    if fields.len() != 10 {
        return 9;
    }
    let reading = packet::read_fixed(h4);
    put_reading(reading, fields)
}

pub fn levelspruce_packet_read_vc12(bits: &[u8], fields: &mut [u8]) -> u8
    ensures { (result ≡ read_vc12_answer_c bits.now fields.old)
        × (fields.new ≡ read_vc12_fields_c bits.now fields.old) }
{
    if fields.len() != 10 {
        return 9;
    }
    let reading = packet::read_vc12(bits);
    put_reading(reading, fields)
}
