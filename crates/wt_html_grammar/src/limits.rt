//! The limits of HTML that is read.

/// At most so many elements are nested.
pub const NESTED_ELEMENTS: usize = 200;
