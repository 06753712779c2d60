//! What tangles a block of a page with what is round it, so that it can't be read by itself: a call that
//! is text, an open tag, and of a group its apostrophes and its texts. And the slice of a group, as it is
//! read alone.
#![tactic(auto)]

mod ending;
mod group_items;
mod open_tag;
mod open_text;
mod passes;
mod scheme;
mod slice_laws;
mod tag_pass;
mod tangled_laws;
mod text_call;
mod toggles;

pub use group_items::pieces_alone;
pub use open_text::has_open_text;
pub use passes::Passes;
pub use scheme::scheme_len;
pub use slice_laws::slice_lies_by_pieces;
pub use tangled_laws::{
    calls_share_bytes, lines_are_joined, open_tags, open_texts_are_cut, open_texts_stand,
    runs_are_joined,
};
pub use toggles::has_odd_line;
