//! The edit of a page as one call: the splice, and the new page read again, which has to show what the
//! edited tree shows. `selser_refusal` says why an edit without marks is refused, and `readings` how
//! many new pages it may read back.
#![tactic(auto)]

mod editing;
mod known;
mod readings;
mod refusal;
mod selser_refusal;

pub use editing::edit;
pub use known::{KnownPage, annotated_of_items, known_page};
pub use readings::{MOST_READINGS, Readings};
pub use refusal::EditRefusal;
pub use selser_refusal::SelserRefusal;
pub use wt_content::ContentWhy;
