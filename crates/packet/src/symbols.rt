// A packet as a row of sixteen entries, read by symbols: what one frame carries of it.
ghost use Rattle.std.specs.Prelude.{◌≡◌};
ghost use Rattle.packet.specs.Symbols.{entry_at, entry_with, with_symbol};

use crate::kinds;

// The entry that has the symbol of the frame at a place of the packet.
pub fn entry_at(kind: u8, place: u8) -> u8
    ensures { result ≡ entry_at kind place }
{
    if kind == kinds::VC12 {
        return place / 2;
    }
    place
}

// VC-12's entry with the bit of a frame put in.
fn pair_with(entry: u8, place: u8, byte: u8) -> u8
    ensures { result ≡ entry_with 1 entry place byte }
{
    if place % 2 == 0 {
        return byte % 2 * 2 + entry % 2;
    }
    entry / 2 * 2 + byte % 2
}

// The entry with the symbol of a frame put in.
pub fn entry_with(kind: u8, entry: u8, place: u8, h4: u8) -> u8
    ensures { result ≡ entry_with kind entry place h4 }
{
    if kind == kinds::VC12 {
        return pair_with(entry, place, h4);
    }
    h4 / 16
}

// A row with the symbol of a frame put at its place. A place past the packet's end leaves it.
pub fn with_symbol(kind: u8, row: [u8; 16], place: u8, h4: u8) -> [u8; 16]
    ensures { result ≡ with_symbol kind row place h4 }
{
    let at = entry_at(kind, place) as usize;
    let mut entries = row;
    if at < 16 {
        entries[at] = entry_with(kind, row[at], place, h4);
    }
    entries
}
