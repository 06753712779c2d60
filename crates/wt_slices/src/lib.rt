//! The slices of the page that an edit replaces, and what is written for each.
#![tactic(auto)]

mod body;
mod change;
mod child;
mod list;
mod steps;
mod walk;

pub use change::{Pair, marked_pairs};
pub use walk::slices;
