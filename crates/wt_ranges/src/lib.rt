//! From a page with calls to its annotated tree: clean nodes, groups and their places.
#![tactic(auto)]

mod carried;
mod children;
mod finished;
mod group_node;
mod group_word;
mod grouping;
mod kept;
mod page_tree;
mod tree_seam;

pub use page_tree::{Annotated, group};
pub use wt_annotated::{
    annotated_page, annotated_without_calls, body_is_clean, each_call_in_one_group,
    few_numbers_with_groups, group_words, groups_are_smallest, groups_by_walking,
    groups_end_at_free_cuts, groups_taken_apart, plain_view_stays, texts_cut_anew, unplaced_nodes,
};
