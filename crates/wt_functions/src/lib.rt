//! The parser functions `#if`, `#ifeq` and `#switch`: which of them a call's target names, and which
//! parts of the call are told and which one is given. A function is decided by the texts of its parts
//! alone, so nothing here expands anything: the layer above asks a `Chooser` what it wants to know,
//! expands that part, and tells it the text. Texts are compared as texts, never as numbers. `braces` says
//! how many braces a call takes of the runs round it.
#![tactic(auto)]

mod braces;
mod chooser;
mod function;
mod laws;

pub use braces::braces_taken;
pub use chooser::{Ask, Chooser};
pub use function::{function_named, function_of};
pub use laws::{
    asks_along, given_for_good, named_by_its_word, nothing_behind_equal, parts_in_order,
};
pub use wt_span::Function;
