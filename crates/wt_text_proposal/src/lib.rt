//! The texts and links in a block of an edited page, and what is between two neighbours there: the page's bytes where
//! these show it still, and no more signs than are needed. What it shows isn't said here: who asks for it reads it back.
#![tactic(auto)]

mod common;
mod groups;
mod joints;
mod links;
mod plain;
mod texts;

pub use groups::role_in_line;
pub use joints::{InsidePlace, NOWHERE, place_of_new, source_of, with_joints};
pub use links::{is_bare_url, shortened, with_colons, with_fragment};
pub use plain::with_plain;
pub use texts::{ends_with_apostrophe, push_letters, push_nowiki, push_text};
