//! Blocks, items and rows of an edited page as wikitext, with the page's bytes of what is still in them. What they
//! show isn't said here: who asks for them reads them back.
#![tactic(auto)]

mod blocks;

pub use blocks::{Surroundings, push_block, push_if_in_line};
