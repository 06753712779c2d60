//! The inside of one block of an edited page as wikitext, with the page's bytes of all that is still in it, texts
//! too. What it shows isn't said here: who asks for it reads it back.
#![tactic(auto)]

mod inline;
mod nowiki;
mod standing;

pub use inline::{Edges, Writing, edges_of, spelled};
