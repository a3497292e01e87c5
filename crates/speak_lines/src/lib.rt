// The session told to a listener: session_lines' lines and `epoch`, over crates/spoken.
#![tactic(auto)]

mod lines;
mod listening;

pub use listening::{Listener, begin, feed, finish};
