// The C calls of c_receiver, exported.
#![tactic(auto)]

mod receivers;
mod seeing;
