//! The inside of one context: a line, a cell, the text of a link, the inside of a pair of tags.
#![tactic(auto)]

mod chunk;
mod head;
mod inert;
pub mod laws;
mod line;
mod loose;
mod node;
mod pair;
mod parts;
mod reading;
mod rest;
mod seen;
mod stretch;
mod style;
mod text;
mod token;

pub use line::{line_children, with_line};
pub use parts::take_some;
