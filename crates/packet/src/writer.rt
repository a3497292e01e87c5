// A packet written (01, 'Answer numbers': for writing 9, then 8).
ghost use Rattle.std.specs.Prelude.{◌≡◌};
ghost use Rattle.packet.specs.Writing.{fits_within, write_answer, write_bytes, unwritten_number};
ghost use Rattle.std.proofs.Common.{rules};

use crate::layout;
use crate::layout::Fields;
use crate::shares::share_table;
use crate::words::Word;
use ground::Refusal;

// Why nothing was written.
#[derive(Clone, Copy, PartialEq, Eq)]
pub enum Unwritten {
    Length,
    Field,
}

impl Refusal for Unwritten {
    ghost number_of = { unwritten_number };

    fn number(self) -> u8 {
        match self {
            Unwritten::Length => 9,
            Unwritten::Field => 8,
        }
    }

    ghost is_no_zero = { Prim.search rules };
}

// Whether fields fit a packet that has room for so many epochs, numbers and values of the reserved bits.
pub(crate) fn fits_within(fields: Fields, epochs: u16, numbers: u16, values: u32) -> bool
    ensures { result ≡ fits_within epochs numbers values fields }
{
    (u16::from(fields.epoch) < epochs)
        & (u16::from(fields.sq) < numbers)
        & (fields.gid < 2)
        & (fields.rs_ack < 2)
        & (fields.reserved < values)
        & (fields.word != Word::FIXED)
        & fields.word.is_assigned()
}

pub fn write(fields: Fields, h4: &mut [u8]) -> Result<(), Unwritten>
    ensures { (result ≡ write_answer fields h4.old) × (h4.new ≡ write_bytes fields h4.old) }
{
    if h4.len() != 16 {
        return Err(Unwritten::Length);
    }
    if !fits_within(fields, 256, 256, 67108864) {
        return Err(Unwritten::Field);
    }
    let table = share_table();
    h4.copy_from_slice(&layout::h4_of(layout::nibbles_of(&table, fields)));
    Ok(())
}
