// A recording run again at the desk (2026-05): each frame once, then reports until none is due, and what is printed of it. One call reads
// one line or fetches one report, so that what it writes is bounded.
#![tactic(auto)]

mod changes;
mod lengths;
mod lent;
mod output;
mod replay;
mod turns;

pub use lengths::{Lengths, replay_lengths};
pub use replay::{Phase, Replay, begin};
pub use turns::{REPLAY_ROOM, Replayed, turn};
