//! What may be in the content of a marked node, and among children that come and go: why it can't be
//! written, if something is wrong with it.
#![tactic(auto)]

mod children;
mod content;
mod content_laws;
mod reason;
mod url;

pub use children::{
    Holder, bad_children, holder_of, is_child, is_kept_child, is_mark, is_separator, is_space,
};
pub use content::{bad_content, has_break};
pub use content_laws::{
    first_reason, links_hold_no_links, taken_by_grammar, typed_text_stands, untouched_nodes_stand,
    urls_are_read,
};
pub use reason::ContentWhy;
