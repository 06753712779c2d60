//! The new page of an edit: the page with slices of it replaced, and what is outside them.
#![tactic(auto)]

mod splice;

pub use splice::{Change, spliced};
