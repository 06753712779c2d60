//! What an element of an edited page's HTML is as a node, before what is in it is read: its kind by its
//! name and attributes, its number, its data, the attributes that it keeps, and of a group's first element
//! what the group is; or the reason why it is none.
#![tactic(auto)]

mod attributes;
mod carried;
mod data;
mod fault;
mod head;
mod number;
mod own;
mod row;
mod standing;
mod typed;

pub use attributes::{has, is_marked, is_typed, is_unsourced, text_of, value_of};
pub use fault::FitFault;
pub use head::{Head, Headed, Position, StartTag, body_head, headed_by};
pub use number::{decimal_of, id_of};
pub use row::{holds_text, is_section_name, shows_text};
pub use standing::is_grouped;
