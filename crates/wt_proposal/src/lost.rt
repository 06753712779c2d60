//! Comments and include tags that would be lost without a word: those after the last sign of a heading that becomes another
//! block. They are in its delimiter, so no comparison of two trees finds that they are gone.

use std::alloc::Global;
use wt_block_signs::has_mark_behind_signs;
use wt_checks::{Visit, original};
use wt_span::NoMemory;
use wt_tree::{Kind, Node};

fn is_heading(node: &Node<'_>) -> bool {
    matches!(node.kind, Kind::Heading(_))
}

/// Whether an edited node was a heading with such a comment or tag, and is none any more.
fn loses_mark(alloc: Global, index: &[Visit<'_, '_>], node: &Node<'_>) -> Result<bool, NoMemory> {
    if node.id == 0 || is_heading(node) {
        return Ok(false);
    }
    match original(index, node.id) {
        Some(visit) if is_heading(visit.node) => has_mark_behind_signs(alloc, visit.node),
        _ => Ok(false),
    }
}

/// Whether one of these nodes, or of those in them, is such a one.
fn lose_marks(
    alloc: Global,
    index: &[Visit<'_, '_>],
    nodes: &[Node<'_>],
) -> Result<bool, NoMemory> {
    for node in nodes {
        let loses = loses_mark(alloc, index, node)?
            || lose_marks(alloc, index, node.children.as_slice())?;
        if loses {
            return Ok(true);
        }
    }
    Ok(false)
}

/// Whether an edited tree has such a node.
pub fn loses_marks(
    alloc: Global,
    index: &[Visit<'_, '_>],
    edited: &Node<'_>,
) -> Result<bool, NoMemory> {
    lose_marks(alloc, index, edited.children.as_slice())
}
