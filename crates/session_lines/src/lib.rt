// The text session of 01 over the sender's table: what a line means, what it is answered, and the input fed in parts cut anywhere.
#![tactic(auto)]

mod boards;
mod console;
mod gathering;
mod kept;
mod line;
mod output;
mod replies;
mod running;
mod session;

pub use boards::show;
pub use console::{Console, Fed, Refusal, feed_any, finish_any};
pub use gathering::{Gathered, gather};
pub use kept::Kept;
pub use line::{Line, read_line};
pub use replies::{Reply, is_board, reply_to};
pub use running::run;
pub use session::{OUTPUT_ROOM, Session, begin, feed, finish, line_in};
