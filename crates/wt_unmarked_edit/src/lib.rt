//! The edit of a page without marks as one call: new pages are tried one after another, and each is read back.
#![tactic(auto)]

mod proposing;
mod reading_back;
mod unmarked;

pub use unmarked::selser;
pub use wt_checks::TreeRefusal;
pub use wt_content::ContentWhy;
pub use wt_edit::{MOST_READINGS, Readings, SelserRefusal};
pub use wt_new_page::Memory;
