// The C face of the receiver, as the card's C host calls it. include/levelspruce.h is the header of all crates of C calls.
#![tactic(auto)]

pub mod receivers;
pub mod seeing;
