// The C calls for recordings: replayed and mended. include/levelspruce.h is the header of all crates of C calls.
#![tactic(auto)]

mod keeping;
pub mod mends;
pub mod replays;
