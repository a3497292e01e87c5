// The C face of packets, payload and the sender, as the card's C host calls them. The receiver's calls are in c_receiver, the others in c_cards and
// c_recordings. include/levelspruce.h is the header of all.
#![tactic(auto)]

pub mod boards;
pub mod keeping;
pub mod packets;
pub mod payloads;
pub mod seeing;
pub mod senders;
pub mod sharing;
