// The sender: the table, its commands and reports (01, 'The sender's table'), the board that shows it, and the start of an epoch (01, 'Taking effect').
#![tactic(auto)]

mod board;
mod commands;
mod epochs;
mod finding;
mod ranks;
mod refusals;
mod reports;
mod table;

pub use board::{Board, Row, board_of};
pub use commands::{add, empty, lapse, remove, start};
pub use epochs::Sender;
pub use ranks::Ranks;
pub use refusals::Refusal;
pub use reports::report;
pub use table::{Slot, State, Table, is_member};
