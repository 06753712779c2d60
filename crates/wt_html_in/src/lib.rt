//! Reads the HTML of an edited page: its tree and the first element that has no source, or where and
//! why it is no HTML, or the first element that doesn't fit.
#![tactic(auto)]

mod answer;
mod edited;
mod frame;
mod nodes;
mod reader;
mod refusal;
mod roles;
mod sections;
mod texts;
mod walk;
mod whole;

pub use edited::{Edited, unsourced};
pub use reader::Reader;
pub use refusal::HtmlRefusal;
pub use whole::read_html;
pub use wt_html_grammar::HtmlWhy;
pub use wt_schema::FitWhy;
