// Which paths to join (request 2026-09): a planner that proposes k of the candidates, and a small check of any proposal.
// Candidates are numbered as they are handed over, from 0. Delays are in frames and count plainly, never round 4,096.
#![tactic(auto)]

mod answers;
mod checking;
mod order;
mod planning;

pub use answers::OutOfRange;
pub use checking::check;
pub use planning::{Proposal, plan};
