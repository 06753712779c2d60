//! From the items of a page to its meaning: blocks, lists and tables of its rows, as a tree that keeps
//! its pieces. `build` gives exactly the meaning of the items, as `wt_page` defines it.
#![tactic(auto)]

mod block;
mod body;
mod colon;
mod item;
mod list;
mod table;
mod text;

pub use body::{Tree, build, build_pieces};
