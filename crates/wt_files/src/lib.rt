//! Files, read piece by piece.
#![tactic(auto)]

mod file;

pub use file::{FileRead, read_most};
