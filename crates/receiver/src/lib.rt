// The receiver (01, 'The receiver'): its start, the arrival of a frame, the fetching of a report, and what the host reads out.
// Its state is lent rows of sixteen bytes, its frames stand in a lent store.
#![tactic(auto)]

mod arrival;
mod blaming;
mod each;
mod fetching;
mod flagging;
mod flags;
mod hearing;
mod joining;
mod lagging;
mod lengths;
mod report;
mod seeing;
mod setting;
mod shown;
mod starting;
mod states;

pub use arrival::frame;
pub use blaming::cause;
pub use fetching::fetch;
pub use flagging::anew;
pub use hearing::heard;
pub use lagging::behind;
pub use seeing::seen;
pub use setting::settings;
pub use shown::{ports, reply};
pub use starting::{start, start_as, times_within};
