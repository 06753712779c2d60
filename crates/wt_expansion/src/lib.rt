//! A page with its templates expanded: its items with where they come from.
#![tactic(auto)]

mod found;
mod laws;
mod page;
mod walk;

pub use laws::{page_is_sound, pieces_are_the_page};
pub use page::{ExpandedPage, expand, expand_knowing};
