//! A new page of an edit without marks, and what is asked of it, one question each: what is proposed, whether it shows
//! what the edited tree shows, and whether the comments and include tags are in it.
#![tactic(auto)]

mod asked;
mod beside;
mod page;

pub use asked::{Fault, ReadBack, Tried, compared, marked, proposal_for};
pub use beside::{Beside, set_beside};
pub use page::{EditedPage, Memory};
