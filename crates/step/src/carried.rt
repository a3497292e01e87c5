// What a packet that rules carries, for the host to read.
ghost use Rattle.std.specs.Prelude.{◌≡◌};
ghost use Rattle.step.specs.Carried.{other_number, reading_in};

use crate::own;
use packet::{Fields, Unread, kinds};

// A packet by its kind.
pub fn reading_of(kind: u8, row: [u8; 16]) -> Result<Fields, Unread>
    ensures { result ≡ reading_in kind row }
{
    if kind == kinds::FIXED {
        return packet::read_fixed_nibbles(row);
    }
    let table = packet::share_table();
    packet::read_row(&table, kind, row)
}

// Whether it carries another number than the epoch's.
#[tactic(auto, unfolding(crate::specs::Carried::other_number))]
pub fn is_other(kind: u8, epoch: u8, row: [u8; 16]) -> bool
    ensures { result ≡ other_number kind epoch row }
{
    !((kind == kinds::VC12) | own::is_own(epoch, row))
}
