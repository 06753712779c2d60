//! What is next to what in wikitext: where `<nowiki/>` is put between the signs of a content, how
//! a character of text is written, and the content from the left.
//!
//! A content is a list of units, texts and nodes with what they write. `hazard` and
//! `line_start_hazard` are the tables by which `<nowiki/>` is put between what is next to each
//! other and before what begins a line; `spelling_of` writes the content.
#![tactic(auto)]

mod ahead;
mod behind;
mod content;
mod guards;
mod laws;
mod letters;
mod role;
mod side;
mod signs;

pub use content::{push_nowiki, push_nowiki_if, spelling_of};
pub use guards::Setting;
pub use laws::{line_breaks_stay, quiet_content_stays, text_is_harmless};
pub use role::{Role, Stretch, Transclusion};
pub use side::{Side, hazard, line_start_hazard};
pub use signs::{Signs, Thing, Unit};
