//! Texts of calls within calls, expanded level by level, with a stack of their own: the machine's
//! stack grows by the templates that are entered one inside another, and by nothing else.
#![tactic(auto)]

mod choosing;
mod expansion;
mod laws;
mod level;
mod page;
mod reader;
mod run;

pub use expansion::{Expansion, OpenPages, PageCall, Scope};
pub use laws::steps_end;
pub use level::PendingCall;
pub use page::{expanded_text, read_page};
pub use reader::Reader;
pub use run::{StepOutcome, TextRun};
