//! The grammar of the HTML that is read, the tree that a document stands for, and a machine that
//! reads it byte by byte. All lie in `specs/`; the code is the enums that they speak of, the table of
//! first bytes of UTF-8, and the laws that join them.
#![tactic(auto)]

mod event;
mod laws;
mod limits;
mod names;
mod utf8;
mod why;

pub use event::Event;
pub use laws::{
    built_from_spelling, characters_in_table, exact_reading, fronts_of_fronts, one_place,
    white_space,
};
pub use limits::NESTED_ELEMENTS;
pub use names::{EscapeName, Radix};
pub use utf8::{Following, follow};
pub use why::HtmlWhy;
