//! Templates expanded: what a page means with the templates, arguments and messages that its calls
//! give.
#![tactic(auto)]

mod blanks;
mod cost;
mod cursor;
mod given;
mod handing;
mod item;
mod laws;
mod line_start;
mod messages;
mod name;
mod only;
mod read;
mod reading;
mod refusal;
mod store;
mod target;
mod templates;
mod trim;

pub use cost::{byte_count, charge};
pub use cursor::{Cursor, Next};
pub use given::{copied, spelled, with_break};
pub use handing::Handed;
pub use item::{lexeme_piece, piece_of};
pub use laws::work_stops;
pub use name::name_text;
pub use read::{Braces, ReadText};
pub use reading::read_in;
pub use refusal::ExpandRefusal;
pub use store::Store;
pub use target::{is_function, title_of_target};
pub use templates::{Nesting, PageLookup, take};
pub use trim::{behind_items, trimmed_items};
