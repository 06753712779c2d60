//! The inside of a line: what its items mean, before places and numbers are given.
//!
//! `Children` makes the children of any node from its parts: trees that keep their pieces. Contracts
//! see them as trees over items, whose definitions the layers above share: parts, and the children
//! that parts make.
#![tactic(auto)]

mod carried;
mod children;
mod inside;
mod laws;
mod loose;
mod nowiki;
mod pieces;
mod raw;
mod room;
mod run;
mod tree;
mod whole;

pub use carried::push_shown;
pub use children::Children;
pub use laws::{children_are_runs, children_hold_their_parts, opened_items_keep_their_source};
pub use loose::Loose;
pub use room::with_room;
pub use tree::{NodeHead, PieceTree};
