// Lines of text, fields parted by tabs: fields read in a lent text, words and numbers put into a lent buffer.
#![tactic(auto)]

mod fields;
mod hex;
mod output;

pub use fields::{end_of, field, is_word, parted, piece_end, read_hex, read_number, same};
pub use hex::{is_hex, read_bytes};
pub use output::{put, put_decimal, put_number, put_word};
