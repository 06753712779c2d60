//! Lines of an expanded page, and what each is.
//!
//! `kind_of_pieces` decides the kind of a line by its ends. The layers above read pieces of many
//! characters as items by the calls of `partition`, `scan`, `split`, `sign` and `back`, each of whose
//! contracts says in items what it does with pieces. What lines are is a definition with laws.
#![tactic(auto)]

mod back;
mod kind;
mod laws;
mod line;
mod partition;
mod scan;
mod sign;
mod split;

pub use back::BackSigns;
pub use kind::{LineKind, MOST_TABLES, kind_of_pieces};
pub use laws::{one_set_of_lines, one_split};
pub use line::Line;
pub use partition::{chars_piece, is_break, is_chars, unbroken_len};
pub use scan::{is_mark, marks_len};
pub use sign::{LineSign, Signs};
pub use split::{item_count, split_items};
