//! Why a content can't be written.

/// Why what is in a marked node can't be written: the first of these that holds anywhere in it.
#[derive(Clone, Copy, Debug, PartialEq, Eq)]
pub enum ContentWhy {
    /// A new element that isn't bold, italic, a link or a line break, or a changed one that is written as
    /// it is in the page; among children, a new block that may not be there, or a node of the page
    /// inside a new one.
    Element,
    /// A new or changed link whose `href` leads to no title, or isn't a URL.
    Href,
    /// A line break in a text elsewhere than directly in a paragraph.
    LineBreak,
    /// A link inside a link.
    Nested,
    /// No item of the page is left in a list.
    EmptyList,
}
