//! The data of an outermost call, as the element of its group carries it.
#![tactic(auto)]

mod call_text;
mod laws;
mod param;
mod part;

pub use laws::parameters_of_calls;
pub use part::call_part;
