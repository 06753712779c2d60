use wt_span::{LexKind, Range};

/// A part of a text that is read as one: what it is, and its bytes.
#[derive(Clone, Copy, Debug, PartialEq, Eq)]
pub struct Lexeme {
    pub kind: LexKind,
    pub at: Range,
}
