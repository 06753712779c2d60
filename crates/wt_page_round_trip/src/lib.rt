//! The laws that join pages and their HTML: what is written for a page is read as the page's own
//! annotated tree; few of its nodes have numbers; and what HTML is read as, in other words than the
//! definitions that the reader follows.
#![tactic(auto)]

mod bodies;
mod bounds;
mod laws;

pub use bodies::{
    section_attributes_count_for_nothing, sections_may_be_taken_out, texts_side_by_side_are_one,
    what_is_read_is_one_body,
};
pub use bounds::few_numbers;
pub use laws::{
    expanded_page_is_text, groups_are_labelled, items_are_the_page, page_is_read, whole_page_tree,
};
