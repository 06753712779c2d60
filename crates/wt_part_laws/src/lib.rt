//! Laws of pages in parts: scanners over a text in two parts, rows of a page by counts and cases, nodes
//! that are moved, texts with calls side by side, and the trees of pages with calls in which blocks are
//! others.
#![tactic(auto)]

mod called;
mod joined;
mod moved_nodes;
mod rows;
mod scans;

pub use called::{
    blocks_of_texts_hold_their_calls, blocks_of_what_calls_give_hold_these,
    groups_stay_round_blocks, groups_stay_round_blocks_with_calls, moved_calls_have_the_same_data,
};
pub use joined::{
    lexemes_of_parts_meet, parts_of_pages_expand_by_themselves, texts_give_the_same_anywhere,
    texts_side_by_side_give_both,
};
pub use moved_nodes::moved_nodes_stay_the_same;
pub use rows::{
    blocks_are_read_by_cases, blocks_stand_at_their_places, cells_hold_blocks,
    headings_stand_in_cells, kinds_are_counted, meaning_is_read_by_cases,
    paragraphs_stand_in_cells, tables_hold_units, units_are_counted,
};
pub use scans::{
    fronts_join, lexemes_have_fronts, lexemes_join, tiles_join, uncrossed_fronts_settle,
};
