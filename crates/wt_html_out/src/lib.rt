//! The HTML of a page's tree, written into memory.
#![tactic(auto)]

mod attributes;
mod bytes;
mod group_attributes;
mod groups;
mod names;
mod nodes;
mod refusal;
mod shown;
mod tags;

pub use nodes::html_bytes_within;
pub use refusal::LengthRefusal;
