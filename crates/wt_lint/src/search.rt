//! The walk over a tree.

use crate::bare_finding::BareFinding;
use crate::met::Titles;

/// What was found so far, and the titles of the categories, each once.
#[derive(Drop)]
pub struct Search {
    pub found: Vec<BareFinding>,
    pub titles: Titles,
}
