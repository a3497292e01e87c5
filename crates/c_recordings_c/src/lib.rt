// The C calls of c_recordings, exported.
#![tactic(auto)]

mod mends;
mod replays;
