//! Lists as runs of lines, and headings by their delimiters.
//!
//! `nest_lists` nests the lines of a list by their prefixes, and `heading_cuts` finds where the
//! delimiters of a heading end. The layer above joins these to blocks.
#![tactic(auto)]

mod ends;
mod heading;
mod laws;
mod limits;
mod measure;
mod nest;

pub use heading::{HeadingCuts, heading_cuts};
pub use laws::{heading_is_its_parts, nested_by_neighbours};
pub use limits::MOST_SIGNS;
pub use nest::{ListNode, nest_lists};
