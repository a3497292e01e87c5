// A packet read for what it rules.
ghost use Rattle.std.specs.Prelude.{◌≡◌};
ghost use Rattle.packet.specs.ByTable.{read_row_with, ruling_with};
ghost use Rattle.packet.specs.Ruling.{ruling_by};

use crate::layout::Fields;
use crate::reader::Unread;
use crate::{kinds, reader, vc12};

// Kept: a flag and no Option, since `fixed_word` and `own_fixed` say the word of a refused packet too, and judge's Seen has these four as they are.
#[derive(Clone, Copy)]
pub struct Ruling {
    // whether it was read with 0; only then the rest says something
    pub good: bool,
    pub word: u8,
    pub number: u8,
    pub gid: u8,
}

pub(crate) fn ruling_by(reading: Result<Fields, Unread>) -> Ruling
    ensures { result ≡ ruling_by reading }
{
    match reading {
        Ok(fields) => Ruling {
            good: true,
            word: fields.word.0,
            number: fields.sq,
            gid: fields.gid,
        },
        Err(_) => Ruling {
            good: false,
            word: 0,
            number: 0,
            gid: 0,
        },
    }
}

// The sixteen entries of a packet, by its kind.
pub fn read_row(table: &[[u8; 256]; 7], kind: u8, row: [u8; 16]) -> Result<Fields, Unread>
    ensures { result ≡ read_row_with table.now kind row }
{
    if kind == kinds::VC12 {
        return vc12::read_vc12_row(row);
    }
    reader::read_nibbles(table, row)
}

// The packet of an epoch by the receiver's own count, which the rule of today does not look at.
pub fn ruling_of(table: &[[u8; 256]; 7], kind: u8, epoch: u8, row: [u8; 16]) -> Ruling
    ensures { result ≡ ruling_with table.now kind epoch row }
{
    ruling_by(read_row(table, kind, row))
}
