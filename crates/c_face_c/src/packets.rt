// c_face::packets for C.
ghost use Rattle.std.specs.Prelude.{◌≡◌};
ghost use Rattle.c_face.specs.Packets.{read_answer_c, read_fields_c, read_fixed_answer_c, read_fixed_fields_c, read_vc12_answer_c, read_vc12_fields_c, write_answer_c, write_bytes_c, write_fixed_answer_c, write_vc12_answer_c, write_vc12_bytes_c};
ghost use Rattle.packet.specs.Fixed.{write_fixed_bytes};

#[unsafe(no_mangle)]
pub extern "C" fn levelspruce_packet_write(
    epoch: u32,
    word: u32,
    gid: u32,
    mst: u32,
    rs_ack: u32,
    sq: u32,
    reserved: u32,
    h4: &mut [u8],
) -> u8
    ensures { (result ≡ write_answer_c epoch word gid mst rs_ack sq reserved h4.old)
        × (h4.new ≡ write_bytes_c epoch word gid mst rs_ack sq reserved h4.old) }
{
    c_face::packets::levelspruce_packet_write(epoch, word, gid, mst, rs_ack, sq, reserved, h4)
}

#[unsafe(no_mangle)]
pub extern "C" fn levelspruce_packet_write_vc12(
    epoch: u32,
    word: u32,
    gid: u32,
    mst: u32,
    rs_ack: u32,
    sq: u32,
    reserved: u32,
    bits: &mut [u8],
) -> u8
    ensures { (result ≡ write_vc12_answer_c epoch word gid mst rs_ack sq reserved bits.old)
        × (bits.new ≡ write_vc12_bytes_c epoch word gid mst rs_ack sq reserved bits.old) }
{
    c_face::packets::levelspruce_packet_write_vc12(
        epoch, word, gid, mst, rs_ack, sq, reserved, bits,
    )
}

#[unsafe(no_mangle)]
pub extern "C" fn levelspruce_packet_read(h4: &[u8], fields: &mut [u8]) -> u8
    ensures { (result ≡ read_answer_c h4.now fields.old)
        × (fields.new ≡ read_fields_c h4.now fields.old) }
{
    c_face::packets::levelspruce_packet_read(h4, fields)
}

#[unsafe(no_mangle)]
pub extern "C" fn levelspruce_packet_write_fixed(epoch: u32, sq: u32, h4: &mut [u8]) -> u8
    ensures { (result ≡ write_fixed_answer_c epoch sq h4.old)
        × (h4.new ≡ write_fixed_bytes epoch sq h4.old) }
{
    c_face::packets::levelspruce_packet_write_fixed(epoch, sq, h4)
}

#[unsafe(no_mangle)]
pub extern "C" fn levelspruce_packet_read_fixed(h4: &[u8], fields: &mut [u8]) -> u8
    ensures { (result ≡ read_fixed_answer_c h4.now fields.old)
        × (fields.new ≡ read_fixed_fields_c h4.now fields.old) }
{
    c_face::packets::levelspruce_packet_read_fixed(h4, fields)
}

#[unsafe(no_mangle)]
pub extern "C" fn levelspruce_packet_read_vc12(bits: &[u8], fields: &mut [u8]) -> u8
    ensures { (result ≡ read_vc12_answer_c bits.now fields.old)
        × (fields.new ≡ read_vc12_fields_c bits.now fields.old) }
{
    c_face::packets::levelspruce_packet_read_vc12(bits, fields)
}
