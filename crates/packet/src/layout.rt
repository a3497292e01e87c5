// The layout of a packet (01, 'The control packet'): its fields, its sixteen nibbles, and the H4 bytes that carry them.
ghost use Rattle.std.specs.Prelude.{◌≡◌, [], ◌∷◌, ◌++◌};
ghost use Rattle.packet.specs.Bounds.{Bounds};
ghost use Rattle.packet.specs.Layout.{byte_of, data_of, fields_of, h4_of, nibbles_of, reserved_of};
ghost use Rattle.packet.specs.Shares.{halves_of, shares_of};

use crate::crc::crc;
use crate::words::Word;

// Kept: bytes where a bit would do, since any may be given for writing, which refuses what is too large.
#[derive(Clone, Copy, PartialEq, Eq)]
pub struct Fields {
    pub epoch: u8,
    pub word: Word,
    pub gid: u8,
    pub mst: u8,
    pub rs_ack: u8,
    pub sq: u8,
    // The 26 reserved and zero bits in the order of sending, the first one highest.
    pub reserved: u32,
}

pub(crate) fn byte_of(high: u8, low: u8) -> u8
    ensures { result ≡ byte_of high low }
{
    high % 16 * 16 + low % 16
}

// The sixteen nibbles of eight bytes.
pub(crate) fn halves_of(
    at_0: u8,
    at_1: u8,
    at_2: u8,
    at_3: u8,
    at_4: u8,
    at_5: u8,
    at_6: u8,
    at_7: u8,
) -> [u8; 16]
    ensures { result ≡ halves_of (at_0 ∷ at_1 ∷ at_2 ∷ at_3 ∷ at_4 ∷ at_5 ∷ at_6 ∷ at_7 ∷ []) }
{
    [
        at_0 / 16,
        at_0 % 16,
        at_1 / 16,
        at_1 % 16,
        at_2 / 16,
        at_2 % 16,
        at_3 / 16,
        at_3 % 16,
        at_4 / 16,
        at_4 % 16,
        at_5 / 16,
        at_5 % 16,
        at_6 / 16,
        at_6 % 16,
        at_7 / 16,
        at_7 % 16,
    ]
}

// The 26 reserved bits are one number, the first one highest. By these each nibble of them, or the three bits beside RS-Ack and GID, begins there.
const BESIDE_ACK: u32 = 8388608;

const MFI1_11: u32 = 524288;

const MFI1_12: u32 = 32768;

const MFI1_13: u32 = 2048;

const BESIDE_GID: u32 = 256;

const MFI1_4: u32 = 16;

fn reserved_of(nibbles: [u8; 16]) -> u32
    ensures { result ≡ reserved_of nibbles }
{
    let beside_ack = (nibbles[2] % 16 / 2) as u32;
    let mfi1_11_and_12 = byte_of(nibbles[3], nibbles[4]) as u32;
    let mfi1_13 = (nibbles[5] % 16) as u32;
    let beside_gid = (nibbles[11] % 16 / 2) as u32;
    let mfi1_4_and_5 = byte_of(nibbles[12], nibbles[13]) as u32;
    beside_ack * BESIDE_ACK
        + mfi1_11_and_12 * MFI1_12
        + mfi1_13 * MFI1_13
        + beside_gid * BESIDE_GID
        + mfi1_4_and_5
}

pub(crate) fn fields_of(nibbles: [u8; 16]) -> Fields
    ensures { result ≡ fields_of nibbles }
{
    Fields {
        epoch: byte_of(nibbles[8], nibbles[9]),
        word: Word::from_nibble(nibbles[10]),
        gid: nibbles[11] % 2,
        mst: byte_of(nibbles[0], nibbles[1]),
        rs_ack: nibbles[2] % 2,
        sq: byte_of(nibbles[6], nibbles[7]),
        reserved: reserved_of(nibbles),
    }
}

// The fourteen data nibbles, and 0 in the two places of the CRC.
fn data_of(fields: Fields) -> [u8; 16]
    requires { Bounds fields }
    ensures { result ≡ data_of fields ++ (0 ∷ 0 ∷ []) }
{
    let reserved = fields.reserved;
    [
        fields.mst / 16,
        fields.mst % 16,
        (reserved / BESIDE_ACK % 8) as u8 * 2 + fields.rs_ack,
        (reserved / MFI1_11 % 16) as u8,
        (reserved / MFI1_12 % 16) as u8,
        (reserved / MFI1_13 % 16) as u8,
        fields.sq / 16,
        fields.sq % 16,
        fields.epoch / 16,
        fields.epoch % 16,
        fields.word.0,
        (reserved / BESIDE_GID % 8) as u8 * 2 + fields.gid,
        (reserved / MFI1_4 % 16) as u8,
        (reserved % 16) as u8,
        0,
        0,
    ]
}

pub(crate) fn nibbles_of(table: &[[u8; 256]; 7], fields: Fields) -> [u8; 16]
    requires { (table.now ≡ shares_of) × Bounds fields }
    ensures { result ≡ nibbles_of fields }
{
    let mut nibbles = data_of(fields);
    let sum = crc(table, nibbles);
    nibbles[14] = sum / 16;
    nibbles[15] = sum % 16;
    nibbles
}

pub(crate) fn h4_of(nibbles: [u8; 16]) -> [u8; 16]
    ensures { result ≡ h4_of nibbles }
{
    let mut bytes = [0; 16];
    for (place, byte) in bytes.iter_mut().enumerate() {
        *byte = nibbles[place] % 16 * 16 + ((place + 8) % 16) as u8;
    }
    bytes
}
