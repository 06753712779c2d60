//! What is written round the content of a new or changed link or tag.
#![tactic(auto)]

mod links;

pub use links::{external_link, href_of, page_link, tag_pair};
