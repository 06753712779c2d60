//! What a block was in the page: its source, and its nodes with numbers, with what each is to its
//! neighbours; and whether a node of the edited tree is as it was.
#![tactic(auto)]

mod block;
mod gather;
mod kept;
mod known;
mod page;
mod same;

pub use kept::{Kept, shown_text, text_len};
pub use known::{no_page, page_of_block};
pub use page::Page;
pub use same::is_unchanged;
