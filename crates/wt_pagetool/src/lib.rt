//! The program's commands over its devices: `run` answers the words of a command line.
#![tactic(auto)]

mod answers;
mod selser_command;
mod top;

pub use top::run;
pub use wt_commands::{
    Status, pages_come_back, refused_calls_ask_no_further, tell_no_memory, unchanged_page_stays,
    whole_tree,
};
