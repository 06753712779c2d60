//! The commands of the program over its devices but for `selser`, and what is written of an answer or a
//! refusal.
#![tactic(auto)]

mod command;
mod count;
mod edit_command;
mod expand_command;
mod fetch;
mod gen_command;
mod laws;
mod output;
mod page;
mod page_command;
mod refusal;
mod reporting;
mod status;
mod wikitext_command;
mod write;

pub use command::{Command, PageCommand, command_of};
pub use edit_command::edited_page;
pub use expand_command::expansion_of_title;
pub use fetch::fetched_page;
pub use gen_command::counts_of_made;
pub use laws::{pages_come_back, refused_calls_ask_no_further, unchanged_page_stays, whole_tree};
pub use output::Output;
pub use page::text_of_page;
pub use page_command::output_of_title;
pub use refusal::Refusal;
pub use reporting::{report, tell_no_memory};
pub use status::Status;
pub use wikitext_command::{PIECE, read_all, wikitext_of_input};
