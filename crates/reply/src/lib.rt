// Member states and the reply (01, 'Member states and reply'; 02, 2026-03), from the good packets and what the last report left.
#![tactic(auto)]

mod choosing;
mod members;
mod telling;
mod waiting;

pub use members::Port;
pub use telling::{ack, ack_alone, mst};
pub use waiting::{Standing, standing_alone, standings};
