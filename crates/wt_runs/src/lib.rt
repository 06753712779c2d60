//! The children of a node that are kept, and the runs of them that are kept or become a group.
#![tactic(auto)]

mod child;
mod run;

pub use child::Child;
pub use run::{Run, cut_runs};
