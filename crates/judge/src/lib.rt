// An epoch judged (01, 'Report of an epoch'): held, doubtful or sure, from the packets that rule it; and the order of its payload.
#![tactic(auto)]

mod blame;
mod named;
mod numbers;
mod order;
mod seen;
mod verdict;

pub use blame::blamed;
pub use named::Mark;
pub use order::{Order, ordered};
pub use seen::Seen;
pub use verdict::{cause, mark};
