// What goes by the kind of packet: epochs, tags and MST (01, 'The control packet'). H4 and FIXED (request 2026-12) have one clock, VC-12 (request 2026-01) another; any other byte counts as H4.
// Kept: a kind is a byte and no enum, since any byte may come from a host or stand in lent rows.
ghost use Rattle.std.specs.Prelude.{◌≡◌};
ghost use Rattle.packet.specs.Kinds.{frames, epoch_after, tag_after, tag_before, tags, distance_of, place_of, starts_epoch, epoch_of, epochs_in, ends_epoch, first_tag, mst_first, mst_numbers, mst_fails, idle_number, known_kind, payload_right};

pub const H4: u8 = 0;

pub const VC12: u8 = 1;

pub const FIXED: u8 = 2;

pub fn is_known(kind: u8) -> bool
    ensures { result ≡ known_kind kind }
{
    (kind == H4) | (kind == VC12) | (kind == FIXED)
}

// How many frames an epoch has, and so how long a packet is.
pub fn epoch_frames(kind: u8) -> u8
    ensures { result ≡ frames kind }
{
    if kind == VC12 {
        return 32;
    }
    16
}

pub fn next_epoch(kind: u8, epoch: u8) -> u8
    ensures { result ≡ epoch_after kind epoch }
{
    if kind == VC12 {
        return (epoch % 32 + 1) % 32;
    }
    std::num::wrapping_add_u8(epoch, 1)
}

pub fn next_tag(kind: u8, tag: u16) -> u16
    ensures { result ≡ tag_after kind tag }
{
    if kind == VC12 {
        return (tag % 1024 + 1) % 1024;
    }
    (tag % 4096 + 1) % 4096
}

pub fn tag_count(kind: u8) -> u16
    ensures { result ≡ tags kind }
{
    if kind == VC12 {
        return 1024;
    }
    4096
}

pub fn previous_tag(kind: u8, tag: u16) -> u16
    ensures { result ≡ tag_before kind tag }
{
    if kind == VC12 {
        return (tag % 1024 + 1023) % 1024;
    }
    (tag % 4096 + 4095) % 4096
}

// How many frames the tag `to` lies after the tag `from`.
pub fn distance(kind: u8, to: u16, from: u16) -> u16
    ensures { result ≡ distance_of kind to from }
{
    if kind == VC12 {
        return std::num::wrapping_sub_u16(to, from) % 1024;
    }
    std::num::wrapping_sub_u16(to, from) % 4096
}

// The place of a tag's frame in its epoch, and so of its nibble in the packet.
pub fn place_of(kind: u8, tag: u16) -> u8
    ensures { result ≡ place_of kind tag }
{
    if kind == VC12 {
        return (tag % 32) as u8;
    }
    ((tag % 16 + 8) % 16) as u8
}

pub fn starts_epoch(kind: u8, tag: u16) -> bool
    ensures { result ≡ starts_epoch kind tag }
{
    place_of(kind, tag) == 0
}

pub fn epoch_of(kind: u8, tag: u16) -> u8
    ensures { result ≡ epoch_of kind tag }
{
    if kind == VC12 {
        return (tag % 1024 / 32) as u8;
    }
    ((tag % 4096 + 8) % 4096 / 16) as u8
}

// How many epochs later than an epoch's first frame a frame is that lies so far after it.
pub fn epochs_in(kind: u8, distance: u16) -> u8
    ensures { result ≡ epochs_in kind distance }
{
    if kind == VC12 {
        return (distance / 32 % 32) as u8;
    }
    (distance / 16 % 256) as u8
}

// Whether it is the last frame of its epoch.
pub fn ends_epoch(kind: u8, distance: u16) -> bool
    ensures { result ≡ ends_epoch kind distance }
{
    if kind == VC12 {
        return distance % 32 == 31;
    }
    distance % 16 == 15
}

// The tag with which an epoch starts.
pub fn first_tag(kind: u8, epoch: u8) -> u16
    ensures { result ≡ first_tag kind epoch }
{
    if kind == VC12 {
        return epoch as u16 * 32 % 1024;
    }
    (epoch as u16 * 16 + 4088) % 4096
}

// The first of the numbers that MST speaks of in an epoch.
pub fn mst_first(kind: u8, epoch: u8) -> u8
    ensures { result ≡ mst_first kind epoch }
{
    if kind == VC12 {
        return epoch % 8 * 8;
    }
    epoch % 32 * 8
}

// How many numbers MST speaks of in an epoch.
pub fn mst_numbers(kind: u8) -> u8
    ensures { result ≡ mst_numbers kind }
{
    8
}

// What MST says of a number that it speaks of: one of the mst_numbers from mst_first on.
pub fn mst_fails(mst: u8, number: u8) -> bool
    ensures { result ≡ mst_fails mst number }
{
    (mst >> (7 - number % 8)) % 2 == 1
}

// The number of an IDLE slot.
pub fn idle_number(kind: u8) -> u8
    ensures { result ≡ idle_number kind }
{
    if kind == VC12 {
        return 63;
    }
    255
}

// Whether member frames of this kind may have so many bytes of payload, among those that any group's may have.
pub fn is_payload(kind: u8, payload: u32) -> bool
    ensures { result ≡ payload_right kind payload }
{
    (kind != VC12) | (payload == 136)
}
