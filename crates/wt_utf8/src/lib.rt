//! Where bytes stop being UTF-8: exactly the length of their longest prefix that begins a text.
#![tactic(auto)]

mod character;
mod laws;
mod place;

pub use laws::{exact_place, one_end};
pub use place::{not_utf8_place, read_text};
