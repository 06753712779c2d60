//! What is known of the page of an edit without marks: its nodes by their numbers, and the texts beside each.
#![tactic(auto)]

mod closeness;
mod insides;
mod known;
mod lines;
mod texts;

pub use closeness::{Closeness, breaks_between};
pub use insides::{text_of, text_of_staying};
pub use known::{Block, Known, Sides, block_of, first_text, last_text, takes_from_elsewhere};
pub use lines::{blanks_at_line_start, is_at_line_start};
pub use texts::joined;
