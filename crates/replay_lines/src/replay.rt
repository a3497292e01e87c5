// How far a recording has been replayed, beside the receiver's rows and store.
ghost use Rattle.std.specs.Prelude.{◌≡◌};
ghost use Rattle.replay_lines.specs.Replay.{beginning, next_line, output_of, store_of};

use packet::kinds;

#[derive(Clone, Copy)]
pub enum Phase {
    // the first line is to come
    Settings,
    // a line is to come
    Reading,
    // reports may be due
    Fetching,
    // the rest of a line that is too long is to come
    Skipping,
    // the first line was refused
    Ended,
}

#[derive(Clone, Copy)]
pub struct Replay {
    pub phase: Phase,
    // how many lines were read
    pub line: u64,
    // how many fetches may follow before the next line
    pub left: u16,
    // the group's
    pub kind: u8,
    pub ports: u8,
    // P
    pub size: u16,
    // W
    pub window: u16,
}

pub fn begin() -> Replay
    ensures { result ≡ beginning }
{
    Replay {
        phase: Phase::Settings,
        line: 0,
        left: 0,
        kind: 0,
        ports: 0,
        size: 0,
        window: 0,
    }
}

pub(crate) fn next_line(line: u64) -> u64
    ensures { result ≡ next_line line }
{
    std::num::wrapping_add_u64(line, 1)
}

// How many bytes of store and bytes of output the receiver has.
pub(crate) fn store_of(ports: u8, size: u16, window: u16) -> usize
    ensures { result ≡ store_of ports size window }
{
    ports as usize * window as usize * (size as usize + 1)
}

pub(crate) fn output_of(kind: u8, ports: u8, size: u16) -> usize
    ensures { result ≡ output_of kind ports size }
{
    let frames = kinds::epoch_frames(kind);
    ports as usize * frames as usize * size as usize
}
