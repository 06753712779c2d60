//! The listing of a page's numbered nodes: one line for each, with its kind and its place.
#![tactic(auto)]

mod laws;
mod node_line;
mod page;
mod word;

pub use laws::line_before_children;
pub use page::listing;
