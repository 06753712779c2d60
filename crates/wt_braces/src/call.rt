use wt_span::{List, NoMemory, Range};

/// A part of a call: the bytes between its delimiters, the braces and the pipes.
#[derive(Clone, Copy, Debug, PartialEq, Eq)]
pub struct PartAt {
    pub at: Range,
    /// The place of the `=` that ends the part's name. The first part, the target, has none.
    pub equals: Option<u32>,
}

/// A call or an argument, by its bytes.
#[derive(Debug, Drop)]
pub struct Call {
    /// Three braces made it, and not two.
    pub argument: bool,
    /// From its first brace to its last.
    pub at: Range,
    /// The target, and then each further part.
    pub parts: List<PartAt>,
    /// The number, from 0, of the nearest call or argument round it.
    pub parent: Option<u32>,
}

/// Why the braces of a text are not matched.
#[derive(Clone, Copy, Debug, PartialEq, Eq)]
pub enum BraceRefusal {
    /// Some call or argument has a hundred others round it. The place is the first byte of the
    /// leftmost such one.
    BracesTooDeep { place: u32 },
    /// No memory was found.
    NoMemory,
}

impl From<NoMemory> for BraceRefusal {
    fn from(_e: NoMemory) -> BraceRefusal {
        BraceRefusal::NoMemory
    }
}
