// The receiver's state: lent rows of sixteen bytes, read and written as records. This crate alone knows where each field stands.
// Row 0 is the group's, and port i has the five rows from 5 i + 1 on: its step, its member, the packet being gathered, the packet that rules, its marks.
// Any rows are a state. A row that is not there reads as zeros, and what is put there is dropped.
// Kept: flags, kinds and states are bytes, since any row is a record and gives the same bytes again (`group_row_back` and those beside it).
#![tactic(auto)]

pub mod group;
pub mod member;
pub mod packets;
mod row;
pub mod step;

pub use group::Group;
pub use member::Member;
pub use step::Step;
