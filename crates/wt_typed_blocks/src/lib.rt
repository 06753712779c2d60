//! Laws of edits: what is typed and how it is spelled, in the words of a reader of wikitext; what is in
//! marked nodes and outside them; edits that change the contents of blocks of a page, or type texts in
//! them, and send the others as they are.
#![tactic(auto)]

mod content;
mod kept;
mod spelling;
mod trees;
mod typed;

pub use content::{children_by_grammar, text_edits_stand};
pub use kept::{kept_nodes_lie_in_their_block, marks_and_groups_are_told_by_their_neighbours};
pub use spelling::{lines_stay_text, text_has_no_signs, text_reads_back};
pub use trees::{frames_are_told_one_by_one, leaves_are_told_one_by_one};
pub use typed::{
    blocks_that_come_and_go_are_shown, blocks_that_come_and_go_are_taken,
    blocks_that_come_and_go_pass_the_checks, edited_contents_are_shown, edited_contents_are_taken,
    edited_contents_are_told_apart, edited_contents_pass_the_checks, typed_texts_are_shown,
    typed_texts_are_taken, typed_texts_are_told_apart, typed_texts_pass_the_checks,
};
