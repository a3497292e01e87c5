// How large a group may be (01, 'Numbers that bound the work').
ghost use Rattle.std.specs.Prelude.{◌≡◌};
ghost use Rattle.phases.specs.Sizes.{ports_in, sized, sized_as, start_sized, store_for};

use packet::kinds;
use payload::PAYLOAD_MOST;
use rows::Group;

fn is_sized_as(known: bool, kind: u8, count: u32, payload: u32, window: u32) -> bool
    ensures { result ≡ sized_as known kind count payload window }
{
    let frames = kinds::epoch_frames(kind);
    let tags = kinds::tag_count(kind);
    known
        & (1 <= count)
        & (count <= 64)
        & (1 <= payload)
        & (payload as usize <= PAYLOAD_MOST)
        & (frames as u32 <= window)
        & (window <= (tags / 2) as u32)
}

// H4's clock first, by itself: every call asks this, and the compiler then knows the numbers.
fn is_sized(kind: u8, count: u32, payload: u32, window: u32) -> bool
    ensures { result ≡ sized kind count payload window }
{
    let h4 = (kind == kinds::H4) | (kind == kinds::FIXED);
    if is_sized_as(h4, kinds::H4, count, payload, window) {
        return true;
    }
    is_sized_as(kind == kinds::VC12, kinds::VC12, count, payload, window)
}

// Whether a start takes such a group.
pub fn is_startable(kind: u8, count: u32, payload: u32, window: u32) -> bool
    ensures { result ≡ start_sized kind count payload window }
{
    is_sized(kind, count, payload, window) & kinds::is_payload(kind, payload)
}

// How many ports a group has; a group out of range, or of no kind that is known, is an empty one.
pub fn ports_in(group: Group) -> u8
    ensures { result ≡ ports_in group }
{
    if is_sized(
        group.kind,
        group.count as u32,
        group.payload as u32,
        group.window as u32,
    ) {
        return group.count;
    }
    0
}

// How many bytes the store of a group has.
pub fn store_for(group: Group, ports: u8) -> usize
    ensures { result ≡ store_for group ports }
{
    ports as usize * group.window as usize * (group.payload as usize + 1)
}
