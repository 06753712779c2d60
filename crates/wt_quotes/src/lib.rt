//! The apostrophe rule: which runs of apostrophes switch bold and italic, and the tree of styles
//! that they make of a line. The rules are those of MediaWiki's `doQuotes`, in the profile's form.
//! The layer above cuts a context (a line, the text of a link, the inside of a tag, a cell) into
//! chunks, and may use that `toggles` and `style_tree` give what the definitions say. A call of one
//! of the functions that do nothing, as `styles_nest`, says what holds of a context.
#![tactic(auto)]

mod chunk;
mod laws;
mod style;
mod toggle;
mod turn;

pub use chunk::Chunk;
pub use laws::{
    each_byte_is_styled, each_switch_is_one_delimiter, flattened_is_the_line, one_run_is_exchanged,
    styles_nest, toggles_are_runs,
};
pub use style::{Style, style_tree};
pub use toggle::{Toggle, toggles};
