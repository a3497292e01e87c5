// A recording of what a card saw (2026-05): its first line with the group's settings, and a line for each frame. A record is read through a
// reader that stays on the lent text and knows how far it has come.
#![tactic(auto)]

mod line;
mod opening;
mod pairs;
mod reader;
mod record;

pub use opening::{Opening, opening_at};
pub use pairs::Settings;
pub use reader::{Reader, record_at};
pub use record::{Record, last_record, record_in};
