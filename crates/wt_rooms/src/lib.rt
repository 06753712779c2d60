//! What the C library hands back: a reply, put into the rooms of a caller.
#![tactic(auto)]

mod reply;
mod rooms;

pub use reply::{MISSING, Reply, SHORT, told_by};
pub use rooms::{hand_back, hand_nothing};
