//! The page that `gen` makes from a number, and its template.
#![tactic(auto)]

mod page;

pub use page::{MOST_SECTIONS, page_of, template};
