//! The JSON of the two attributes by which the HTML keeps the page: `data-parsoid`, with the ranges
//! and the source of each element, and `data-mw`, with the parts of templates and extensions.
#![tactic(auto)]

mod disordered;
mod json_text;
mod mw;
mod mw_read;
mod mw_shape;
mod mw_write;
mod parse;
mod refusal;
mod sync;
mod sync_guess;
mod sync_read;
mod sync_write;
mod texts;

pub use mw::to_text;
pub use mw_read::read;
pub use mw_write::push_mw_text;
pub use refusal::{DataRefusal, DataWhy};
pub use sync::{Sync, sync_to_text};
pub use sync_read::read_sync;
pub use sync_write::push_sync_text;
