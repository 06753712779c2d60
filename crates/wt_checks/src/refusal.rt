use crate::number::NodeNumber;

/// Why an edited tree is refused, with the number of a node (`mwN`); the body and new elements have
/// the number 0.
#[derive(Clone, Copy, Debug, PartialEq, Eq)]
pub enum TreeRefusal {
    /// The page has no node with this number.
    UnknownId(NodeNumber),
    /// Two elements have this number.
    RepeatedId(NodeNumber),
    /// The node is elsewhere than in the page.
    Moved(NodeNumber),
    /// A mark or a change on or inside what templates show.
    InTemplate(NodeNumber),
    /// A mark where none may be.
    NotEditable(NodeNumber),
    /// A change of a node that isn't marked.
    UnmarkedChange(NodeNumber),
}
