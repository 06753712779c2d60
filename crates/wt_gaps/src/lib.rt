//! A gap between two children that stay, in a page that is written anew: what goes, and where what comes is
//! put.
#![tactic(auto)]

mod blanks;
mod breaks;
mod coming;
mod gap;
mod gone;
mod lines;
mod nodes;
mod tags;

pub use blanks::byte_at;
pub use breaks::{kind_at_end, kind_at_start, push_breaks};
pub use coming::{Coming, blanks_beside, push_new, signs_in, style_beside};
pub use gap::{Gap, Joined, Numbering, Passed};
pub use gone::{
    Along, Slice, behind_first, comes_along, empties_row, push_change, push_emptied_row, push_gone,
    slices_of, wanted_between, way_of,
};
pub use lines::{
    between_coming, push_between, push_comment, push_comment_line, push_up_to_comment, range_of,
};
pub use nodes::{
    children_between, count_of, first_block, last_number, mark_at, nodes_between, place_behind,
};
pub use tags::Tags;
