//! The limit of the signs of a list.

/// How many signs at the front of a line of lists count.
pub const MOST_SIGNS: usize = 32;
