//! Include tags beside what is written anew. The line breaks beside them are in what a template gives.

use crate::blanks::{back_over_blanks, most_breaks, past_blanks};
use crate::lines::range_of;
use wt_places::Slot;
use wt_tree::{Kind, Node};

/// The places of the include tags directly before and after a part of a gap, or a slice of it.
#[derive(Clone, Copy)]
pub struct Tags {
    pub before: Option<Slot>,
    pub behind: Option<Slot>,
}

impl Tags {
    /// None on either side.
    pub fn none() -> Tags {
        Tags {
            before: None,
            behind: None,
        }
    }
}

/// The place of a node, where it is an include tag.
pub fn tag_of(node: &Node<'_>) -> Option<Slot> {
    match node.kind {
        Kind::Include => Some(range_of(node)),
        _ => None,
    }
}

/// How many line breaks the page has directly before a tag.
pub fn breaks_before_tag(page: &str, tag: Option<Slot>) -> usize {
    match tag {
        Some(tag) => {
            let start = back_over_blanks(page, 0, tag.start);
            most_breaks(page, start, tag.start)
        }
        None => 0,
    }
}

/// How many it has directly after one.
pub fn breaks_behind_tag(page: &str, tag: Option<Slot>) -> usize {
    match tag {
        Some(tag) => {
            let end = past_blanks(page, tag.end, page.len());
            most_breaks(page, tag.end, end)
        }
        None => 0,
    }
}
