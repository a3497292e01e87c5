// One frame of one port (01, 'The receiver'): the step rule, and what the frame does by the window and joining. All on numbers; nothing is stored here.
#![tactic(auto)]

pub mod answers;
mod arrival;
mod carried;
mod own;
mod run;
mod starts;
mod steady;

pub use arrival::{Taken, decide, distance_in, in_step, is_readable};
pub use carried::{is_other, reading_of};
pub use own::{is_odd, ruling_of};
pub use steady::{is_mid_epoch, is_steady};
