// A flag kept in a byte: other than 0 counts as set.
pub(crate) use ground::is_set;
