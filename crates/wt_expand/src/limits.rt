//! The limits of an expansion.

/// The most that an expansion may cost: 1 for each call and argument that is expanded, and at each
/// level the bytes that each gives.
pub const MOST_COST: u64 = 8_388_608;

/// The most templates that may be expanded one inside another.
pub const MOST_TEMPLATES: u32 = 40;
