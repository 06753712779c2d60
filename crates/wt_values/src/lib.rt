//! The values of a call by the names of a template.
#![tactic(auto)]

mod values;

pub use values::Values;
