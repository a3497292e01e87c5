// The CRC of a packet (01, 'CRC') by a table (request 2026-02): the shares of its seven bytes joined.
ghost use Rattle.std.specs.Prelude.{◌≡◌, [], ◌∷◌, slice_index};
ghost use Rattle.packet.specs.ByTable.{crc_with};
ghost use Rattle.packet.specs.Shares.{joined_by, share_in};

use crate::layout::byte_of;

// Takes bytes and no array, so that they stay in registers.
pub(crate) fn join(
    table: &[[u8; 256]; 7],
    at_0: u8,
    at_1: u8,
    at_2: u8,
    at_3: u8,
    at_4: u8,
    at_5: u8,
    at_6: u8,
) -> u8
    ensures { result ≡ joined_by (share_in table.now) (λ p. slice_index (at_0 ∷ at_1 ∷ at_2 ∷ at_3 ∷ at_4 ∷ at_5 ∷ at_6 ∷ []) p) 7 }
{
    table[0][at_0 as usize]
        ^ table[1][at_1 as usize]
        ^ table[2][at_2 as usize]
        ^ table[3][at_3 as usize]
        ^ table[4][at_4 as usize]
        ^ table[5][at_5 as usize]
        ^ table[6][at_6 as usize]
}

pub(crate) fn crc(table: &[[u8; 256]; 7], nibbles: [u8; 16]) -> u8
    ensures { result ≡ crc_with table.now nibbles }
{
    join(
        table,
        byte_of(nibbles[0], nibbles[1]),
        byte_of(nibbles[2], nibbles[3]),
        byte_of(nibbles[4], nibbles[5]),
        byte_of(nibbles[6], nibbles[7]),
        byte_of(nibbles[8], nibbles[9]),
        byte_of(nibbles[10], nibbles[11]),
        byte_of(nibbles[12], nibbles[13]),
    )
}
