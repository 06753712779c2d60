//! The names of tags that have nodes of their own.

/// The HTML tags of a page that are read as paired elements.
#[derive(Clone, Copy, Debug, PartialEq, Eq)]
pub enum TagName {
    Sup,
    Sub,
    Small,
    S,
    U,
    Code,
    Span,
}
