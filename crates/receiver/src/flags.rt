// Flags: a byte of the state other than 0 counts as set.
pub(crate) use ground::is_set;
