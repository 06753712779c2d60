//! What is proposed for an edited page: the page in which what was changed is written anew, and everything else
//! stays as it was, texts too. Whether a proposal is any good is found by reading it back, and by nothing here.
#![tactic(auto)]

mod along;
mod children;
mod homeless;
mod lost;
mod pairs;
mod proposing;

pub use proposing::{Keeping, proposal};
