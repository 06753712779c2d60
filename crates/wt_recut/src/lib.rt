//! Texts and separators of items, cells and captions, cut anew at the border between them.
#![tactic(auto)]

mod laws;
mod recut;

pub use laws::recut_once;
pub use recut::{are_spaces, has_break, is_blank, recut_texts, shows_block};
