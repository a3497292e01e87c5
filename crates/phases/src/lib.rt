// What concerns all ports at once (01, 'Beginning', 'Report of an epoch'): when receiving begins and stops, when an epoch is due, and the passing of an epoch.
#![tactic(auto)]

mod due;
mod flags;
mod passing;
mod settling;
mod sizes;
mod starting;

pub use due::is_complete;
pub use passing::{pass, pass_with};
pub use settling::settle;
pub use sizes::{is_startable, ports_in, store_for};
pub use starting::{foremost, latest};
