//! Laws of pages in which texts were typed: what such edits leave as it was, and that the new tree is
//! the old one with the insides of their blocks replaced.
#![tactic(auto)]

mod as_sent;
mod calling;
mod edges;
mod insides;
mod local;
mod replaced;

pub use as_sent::{
    edits_are_as_sent, text_edits_are_done, text_edits_are_sent_on_the_page,
    text_edits_beside_calls_are_done, text_edits_in_html_are_done,
    text_edits_of_told_blocks_are_done, what_is_read_may_be_sent,
};
pub use calling::{
    blocks_of_nodes_take_texts, blocks_of_texts_and_calls_take_texts, retyped_blocks_that_call_fit,
    texts_of_blocks_show_their_sources,
};
pub use edges::blocks_meet_plainly;
pub use insides::{
    only_the_inside_changes, own_pieces_are_sent_as_they_are, retyped_blocks_are_edited,
    texts_stand_between_borders,
};
pub use local::{
    marked_blocks_make_nothing_else, marked_blocks_with_calls_make_nothing_else,
    text_edits_are_local, text_edits_beside_calls_are_local,
};
pub use replaced::{
    only_that_text_is_another, only_these_texts_are_others, only_these_texts_are_others_anywhere,
};
