//! What is in a body, a cell or an item: the rows of lines, cut into blocks, each block as a tree over
//! items. The definitions in `specs/` say what rows, blocks, lists and tables are; the laws say that
//! they keep all items and are cut in one way. `tree` makes headings, and `cut` says where a line's
//! break is.
#![tactic(auto)]

mod cut;
mod laws;
mod split;
mod tree;

pub use cut::content_len;
pub use laws::{
    blocks_hold_their_rows, meaning_holds_its_items, meaning_is_cut_by_lines, rows_join,
};
pub use tree::heading;
