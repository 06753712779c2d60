//! The spelling of content: what an editor typed, as wikitext that reads back as itself.
//!
//! `spell_inline` writes the content of a block of the page that was marked, `spell_block` a new
//! block. `hazard` and `line_start_hazard` are the tables by which `<nowiki/>` is put between what
//! is next to each other and before what begins a line.
#![tactic(auto)]

mod laws;
mod spell;
mod units;

pub use laws::{line_breaks_shown, spelled_back};
pub use spell::{spell_block, spell_inline};
pub use wt_guards::{Side, hazard, line_start_hazard};
