// A whole work order at once (02, 2026-07): 'Take a list of commands, each a small record of kind, group and slot, and answer each in a lent list of numbers.'
#![tactic(auto)]

mod commands;
mod lists;

pub use commands::{Command, Kind};
pub use lists::{order, order_of};
