// What one H4 byte says of its count (01, 'The control packet'), and one of VC-12 of a start (request 2026-01).
ghost use Rattle.std.specs.Prelude.{◌≡◌};
ghost use Rattle.packet.specs.Counts.{starts_count, tag_by_high, carries_low, tag_by_low, h4_counts, says_start};

// Whether a multiframe starts with this frame.
pub fn starts_count(kind: u8, h4: u8) -> bool
    ensures { result ≡ starts_count kind h4 }
{
    h4 % 16 == 0
}

// The tag after such a frame, as far as it tells.
pub fn tag_by_high(kind: u8, h4: u8) -> u16
    ensures { result ≡ tag_by_high kind h4 }
{
    (h4 / 16 % 16) as u16 * 256 + 1
}

pub fn carries_low(kind: u8, h4: u8) -> bool
    ensures { result ≡ carries_low kind h4 }
{
    h4 % 16 == 1
}

// The tag after a second frame: `tag` is what the first one told.
pub fn tag_by_low(kind: u8, tag: u16, h4: u8) -> u16
    ensures { result ≡ tag_by_low kind tag h4 }
{
    tag / 256 % 16 * 256 + (h4 / 16 % 16) as u16 * 16 + 2
}

// Whether an H4 frame counts as the tag says.
pub fn is_counted(tag: u16, h4: u8) -> bool
    ensures { result ≡ h4_counts tag h4 }
{
    let count = (tag % 16) as u8;
    let high = (tag / 256 % 16) as u8;
    let low = (tag / 16 % 16) as u8;
    let nibble = h4 / 16;
    (h4 % 16 == count) & ((count != 0) | (nibble == high)) & ((count != 1) | (nibble == low))
}

// Whether a VC-12 frame is said to start a packet.
pub fn says_start(byte: u8) -> bool
    ensures { result ≡ says_start byte }
{
    byte / 2 % 2 == 1
}
