//! Reads HTML by the grammar of `wt_html_grammar`, byte by byte and in any pieces: the tree of
//! elements and texts that it stands for, or the exact place and reason of its first fault.
#![tactic(auto)]

mod attributes;
mod builder;
mod content;
mod escape;
mod fault;
mod later;
mod laws;
mod machine;
mod reader;
mod reading;
mod run;
mod signs;
mod tag;
mod whole;

pub use content::{Attribute, Content};
pub use laws::one_kept;
pub use reader::Reader;
pub use whole::read_elements;
pub use wt_html_grammar::HtmlWhy;
pub use wt_html_reasons::HtmlRefusal;
