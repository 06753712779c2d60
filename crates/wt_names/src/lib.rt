//! Titles of pages: how a text is read as a title, its full name, the link to it, and the name of
//! the file that holds its page.
#![tactic(auto)]

mod characters;
mod good;
pub mod laws;
mod link;
mod namespace;
mod reading;
mod title;

pub use good::read_title;
pub use link::{file_name, href_of, title_of_href};
pub use namespace::Ns;
pub use title::{Title, full_name};
