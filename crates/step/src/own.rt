// A packet by the receiver's own count (request 2026-04), and by the kind of packet (requests 2026-01 and 2026-12).
ghost use Rattle.std.specs.Prelude.{◌≡◌};
ghost use Rattle.step.specs.ByTable.{own_ruling_with, ruling_in_with};
ghost use Rattle.step.specs.OwnCount.{ends_odd, odd_packet, own_number, right_crc};

use crate::run;
use packet::{Ruling, Unread, kinds, symbols};

// Whether MFI2, in the ninth and tenth nibble, is the number of the packet's epoch.
pub(crate) fn is_own(epoch: u8, nibbles: [u8; 16]) -> bool
    ensures { result ≡ own_number epoch nibbles }
{
    nibbles[8] % 16 * 16 + nibbles[9] % 16 == epoch
}

fn ruling_in(table: &[[u8; 256]; 7], kind: u8, epoch: u8, nibbles: [u8; 16]) -> Ruling
    ensures { result ≡ ruling_in_with table.now kind epoch nibbles }
{
    if kind == kinds::FIXED {
        return packet::fixed_ruling_of(nibbles);
    }
    packet::ruling_of(table, kind, epoch, nibbles)
}

// The packet of an epoch read for what it rules; one with another MFI2 is refused.
pub fn ruling_of(table: &[[u8; 256]; 7], kind: u8, epoch: u8, nibbles: [u8; 16]) -> Ruling
    ensures { result ≡ own_ruling_with table.now kind epoch nibbles }
{
    if (kind == kinds::VC12) | is_own(epoch, nibbles) {
        return ruling_in(table, kind, epoch, nibbles);
    }
    Ruling {
        good: false,
        word: 0,
        number: 0,
        gid: 0,
    }
}

// A fixed group's packet counts as one of right CRC.
fn is_right(kind: u8, nibbles: [u8; 16]) -> bool
    ensures { result ≡ right_crc kind nibbles }
{
    if kind == kinds::FIXED {
        return true;
    }
    let table = packet::share_table();
    packet::read_nibbles(&table, nibbles) != Err(Unread::Crc)
}

// A right CRC, and another MFI2, which is looked at first: the CRC takes longer than all else of a frame.
#[tactic(auto, unfolding(crate::specs::OwnCount::odd_packet))]
fn is_odd_packet(kind: u8, epoch: u8, nibbles: [u8; 16]) -> bool
    ensures { result ≡ odd_packet kind epoch nibbles }
{
    if (kind == kinds::VC12) | is_own(epoch, nibbles) {
        return false;
    }
    is_right(kind, nibbles)
}

// Whether the frame with this tag ends an odd packet: the one being gathered, with the frame's symbol put in.
#[tactic(auto, unfolding(crate::specs::OwnCount::ends_odd))]
pub fn is_odd(kind: u8, gathering: [u8; 16], tag: u16, h4: u8) -> bool
    ensures { result ≡ ends_odd kind gathering tag h4 }
{
    if run::ends_packet(kind, tag) {
        let place = kinds::place_of(kind, tag);
        let row = symbols::with_symbol(kind, gathering, place, h4);
        let epoch = kinds::epoch_of(kind, tag);
        return is_odd_packet(kind, epoch, row);
    }
    false
}
