// The control packets of virtual concatenation with LCAS (01, 'The control packet'; request 2026-01): control words, epochs and tags, the packet of H4 and of VC-12 written and read.
#![tactic(auto)]

pub mod counts;
mod crc;
mod fixed;
pub mod kinds;
mod layout;
mod reader;
mod ruling;
mod sending;
mod shares;
pub mod symbols;
mod vc12;
mod words;
mod writer;

pub use fixed::{fixed_ruling_of, read_fixed, read_fixed_nibbles, write_fixed};
pub use layout::Fields;
pub use reader::{Unread, read, read_nibbles};
pub use ruling::{Ruling, read_row, ruling_of};
pub use sending::write_by;
pub use shares::share_table;
pub use vc12::{read_vc12, read_vc12_row, write_vc12};
pub use words::Word;
pub use writer::{Unwritten, write};
