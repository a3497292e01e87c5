// The C calls for cards and for those who run and plan them: cards, work orders, the changes of a board and their lines, paths.
// include/levelspruce.h is the header of all crates of C calls.
#![tactic(auto)]

mod boards;
pub mod card_calls;
pub mod changes;
pub mod commands;
pub mod going;
mod keeping;
pub mod plans;
pub mod runs;
