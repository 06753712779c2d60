//! The HTML of a tree, as definitions in `specs/`: the text that is written for it, which trees of
//! elements are pages, what tree each page's HTML stands for, and the first element that has no source.
//! The code is the enum that they speak of, the laws that join them to the grammar of HTML, and those
//! that what is written is read as the same tree.
#![tactic(auto)]

mod laws;
mod round_trip;
mod standing;
mod why;

pub use laws::{first_misfit, first_without_source, one_reading};
pub use round_trip::{nodes_stand_in_sections, without_ranges, written_is_read};
pub use standing::Standing;
pub use why::FitWhy;
