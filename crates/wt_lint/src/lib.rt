//! Doubtful places of a page: what a linter of a wiki lists, such as bold text that nothing closes.
#![tactic(auto)]

mod bare_finding;
mod bytes;
mod category;
mod cursor;
mod finding;
mod heading;
mod laws;
mod met;
mod node;
mod order;
mod place;
mod push;
mod report;
mod search;
mod style;
mod tag;
mod text;
mod titles;
mod walk;

pub use finding::{Finding, Kind};
pub use laws::{each_once_in_order, findings_lie_in_the_page, line_counts_back};
pub use order::lint;
pub use report::finding_lines;
