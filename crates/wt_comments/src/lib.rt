//! Classes of bytes, and comments at the front of a text.
#![tactic(auto)]

mod byte;
mod comment;

pub use byte::{ByteClass, byte_at, name_len, run_len};
pub use comment::{comment_len, comment_line_len};
