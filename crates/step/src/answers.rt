// What the receiver's calls answer: 01's numbers by name.
// Kept: bytes and no enum, since `taken_of` and `frame_of` state these numbers and C reads them.
pub const DONE: u8 = 0;

pub const NO_PORT: u8 = 1;

pub const OUT_OF_RANGE: u8 = 4;

pub const LENGTH: u8 = 9;

pub const FLAGGED: u8 = 10;

pub const OUTSIDE: u8 = 11;

pub const NOT_IN_STEP: u8 = 12;
