use wt_span::{List, Piece};

/// A line, without its line break.
#[derive(Debug, Drop)]
pub struct Line<'a> {
    pub pieces: List<Piece<'a>>,
}
