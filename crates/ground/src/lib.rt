// Laws on lists, numbers, bits, circles of tags and counting: they stand in specs/. The code is four small functions that crates of every floor call. Of the product's
// rules nothing is here but how many members a group has.
#![tactic(auto)]

mod flags;
mod refusals;
mod sizes;

pub use flags::{is_set, one_if};
pub use refusals::{Refusal, number_told};
pub use sizes::{size_byte, size_of};
