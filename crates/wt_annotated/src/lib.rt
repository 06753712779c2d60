//! The annotated tree of a page with calls, as a definition with laws, and the steps of making it that
//! decide no group: pieces read by the calls that they come from, what stands for them on the page,
//! nodes with places, texts cut anew, numbers; and all of it in one pass where no node is a group.
#![tactic(auto)]

mod cursor;
mod cut;
mod filled;
mod held;
mod laws;
mod node;
mod number;
mod page_text;
mod pass;
mod pass_node;
mod piece;
mod seam;
mod stands_cut;
mod tree_walk;
mod unplaced;

pub use cursor::Cursor;
pub use cut::cut_as;
pub use filled::is_filled;
pub use held::{own_pieces, pieces_of_all};
pub use laws::{
    annotated_page, annotated_without_calls, body_is_clean, each_call_in_one_group,
    few_numbers_with_groups, group_words, groups_are_smallest, groups_by_walking,
    groups_end_at_free_cuts, groups_taken_apart, plain_view_stays, texts_cut_anew,
};
pub use node::{Sources, leaf_ranges, leaf_sources, unnumbered_node};
pub use number::{next_after, number_of};
pub use page_text::{Progress, page_texts, page_width};
pub use pass::{PassedNode, annotated_node};
pub use seam::{
    are_of_page, call_of, first_call, first_found, has_page_item, is_hollow, is_parted,
    last_of_piece,
};
pub use tree_walk::{TreeProgress, walk_through};
pub use unplaced::unplaced_nodes;
