//! The sections of a page: each heading among a body's children opens one, and what comes before the
//! first is the lead.
#![tactic(auto)]

mod gather;
mod laws;
mod section;

pub use gather::gather_sections;
pub use laws::{
    headings_open_sections, lead_stands_before, sections_are_deep, sections_leave_the_page,
    sections_open_again, sections_tile,
};
