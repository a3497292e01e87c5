// The C calls of c_face, exported.
#![tactic(auto)]

mod boards;
mod packets;
mod payloads;
mod seeing;
mod senders;
