//! The signs of blocks, items, rows and cells of an edited page: those that they had, and of new ones those of what is
//! beside them.
#![tactic(auto)]

mod delimiters;
mod items;
mod kinds;
mod style;

pub use delimiters::{
    begins_line, goes_on_behind, has_mark_behind_signs, push_begun, push_closing, push_heading_end,
    push_heading_start, push_opening, push_signs, shared_line, shares_line,
};
pub use items::{sign_of, signs_of};
pub use kinds::{
    is_cell, is_item, is_lined, is_list, is_paragraph_in_line, is_part, is_row_without_sign,
};
pub use style::{
    Style, USUAL, ends_with_given_sign, has_signed_text, is_bare_sign, joins_sign, style_of,
    style_within,
};
