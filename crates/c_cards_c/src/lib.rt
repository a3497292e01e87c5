// The C calls of c_cards, exported.
#![tactic(auto)]

mod card_calls;
mod changes;
mod commands;
mod going;
mod plans;
mod runs;
