// A packet read (01, 'Answer numbers': for reading 9, 5, 7, 6; only the high nibbles are looked at).
ghost use Rattle.std.specs.Prelude.{◌≡◌, [], ◌∷◌, length};
ghost use Rattle.packet.specs.ByTable.{read_nibbles_with};
ghost use Rattle.packet.specs.Layout.{highs_of};
ghost use Rattle.packet.specs.Reading.{read_answer, read_fields, unread_number};
ghost use Rattle.std.proofs.Common.{rules};
ghost use Rattle.packet.specs.Shares.{halves_of};

use crate::crc::join;
use crate::layout;
use crate::layout::{Fields, byte_of};
use crate::shares::share_table;
use crate::words::Word;
use ground::Refusal;

// Why there is no packet.
#[derive(Clone, Copy, PartialEq, Eq)]
pub enum Unread {
    Length,
    Crc,
    Fixed,
    Unassigned,
}

impl Refusal for Unread {
    ghost number_of = { unread_number };

    fn number(self) -> u8 {
        match self {
            Unread::Length => 9,
            Unread::Crc => 5,
            Unread::Fixed => 7,
            Unread::Unassigned => 6,
        }
    }

    ghost is_no_zero = { Prim.search rules };
}

// The fields of a packet whose CRC is right.
pub(crate) fn by_word(fields: Fields) -> Result<Fields, Unread>
    ensures { result ≡ read_fields fields }
{
    if fields.word == Word::FIXED {
        return Err(Unread::Fixed);
    }
    if !fields.word.is_assigned() {
        return Err(Unread::Unassigned);
    }
    Ok(fields)
}

// A packet of seven bytes and their CRC. Takes bytes and no array, so that the compiler puts it into both callers and they stay in registers.
fn read_bytes(
    table: &[[u8; 256]; 7],
    at_0: u8,
    at_1: u8,
    at_2: u8,
    at_3: u8,
    at_4: u8,
    at_5: u8,
    at_6: u8,
    carried: u8,
) -> Result<Fields, Unread>
    ensures { result ≡ read_nibbles_with table.now (halves_of (at_0 ∷ at_1 ∷ at_2 ∷ at_3 ∷ at_4 ∷ at_5 ∷ at_6 ∷ carried ∷ [])) }
{
    let sum = join(table, at_0, at_1, at_2, at_3, at_4, at_5, at_6);
    if sum != carried {
        return Err(Unread::Crc);
    }
    let nibbles = layout::halves_of(at_0, at_1, at_2, at_3, at_4, at_5, at_6, carried);
    by_word(layout::fields_of(nibbles))
}

// Sixteen nibbles read, each in the low four bits of its byte.
pub fn read_nibbles(table: &[[u8; 256]; 7], nibbles: [u8; 16]) -> Result<Fields, Unread>
    ensures { result ≡ read_nibbles_with table.now nibbles }
{
    read_bytes(
        table,
        byte_of(nibbles[0], nibbles[1]),
        byte_of(nibbles[2], nibbles[3]),
        byte_of(nibbles[4], nibbles[5]),
        byte_of(nibbles[6], nibbles[7]),
        byte_of(nibbles[8], nibbles[9]),
        byte_of(nibbles[10], nibbles[11]),
        byte_of(nibbles[12], nibbles[13]),
        byte_of(nibbles[14], nibbles[15]),
    )
}

pub(crate) fn highs_of(h4: &[u8]) -> [u8; 16]
    requires { length h4.now ≡ 16 }
    ensures { result ≡ highs_of h4.now }
{
    let mut nibbles = [0; 16];
    for (place, nibble) in nibbles.iter_mut().enumerate() {
        *nibble = h4[place] / 16;
    }
    nibbles
}

// Sixteen H4 bytes read. It goes by no array of nibbles: the compiler would lay that in memory.
pub fn read(h4: &[u8]) -> Result<Fields, Unread>
    ensures { result ≡ read_answer h4.now }
{
    if h4.len() != 16 {
        return Err(Unread::Length);
    }
    let table = share_table();
    read_bytes(
        &table,
        byte_of(h4[0] / 16, h4[1] / 16),
        byte_of(h4[2] / 16, h4[3] / 16),
        byte_of(h4[4] / 16, h4[5] / 16),
        byte_of(h4[6] / 16, h4[7] / 16),
        byte_of(h4[8] / 16, h4[9] / 16),
        byte_of(h4[10] / 16, h4[11] / 16),
        byte_of(h4[12] / 16, h4[13] / 16),
        byte_of(h4[14] / 16, h4[15] / 16),
    )
}
