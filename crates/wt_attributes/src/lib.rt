//! The attributes of tables, rows, cells and tags, as their wikitext writes them. One reader serves
//! all of these: it takes the items that the sign or the tag's name leaves, and gives the
//! attributes that count, in the order in which they are written into HTML.
#![tactic(auto)]

mod attribute;
mod characters;
mod class;
mod laws;
mod reader;
mod scan;

pub use laws::{one_reading, spelled_attributes};
pub use reader::read_attributes;
