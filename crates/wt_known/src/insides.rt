//! The text with which an item or a cell begins, and the comments and include tags on lines of their own below it.

use crate::lines::is_at_line_start;
use wt_checks::{Visit, original};
use wt_difference::inside;
use wt_tree::{Holding, Kind, Node};

/// Whether lists or blocks may come after the text of a node of this kind.
fn holds_more(kind: Kind) -> bool {
    matches!(
        kind.shape().holding,
        Holding::InlinesThenLists | Holding::InlinesThenBlocks
    )
}

/// Whether a node of the page begins a line.
fn begins_line(page: &str, node: &Node<'_>) -> bool {
    match node.ranges {
        Some(ranges) => is_at_line_start(page, ranges.start as usize),
        None => false,
    }
}

/// Whether a node of the page is a comment or an include tag, or, where calls count (`with_calls`), one call that gives
/// nothing.
fn shows_nothing(node: &Node<'_>, with_calls: bool) -> bool {
    let children = node.children.as_slice();
    match children.first() {
        Some(first) if matches!(node.kind, Kind::Group) => {
            with_calls && children.len() == 1 && matches!(first.kind, Kind::Empty)
        }
        _ => node.kind.is_mark(),
    }
}

/// Whether an edited node shows nothing and begins a line in the page, in any node or in the one with this number, where
/// calls count, too.
fn is_on_own_line(
    page: &str,
    index: &[Visit<'_, '_>],
    holder: Option<u32>,
    node: &Node<'_>,
) -> bool {
    match original(index, node.id) {
        Some(visit) if node.id != 0 && shows_nothing(visit.node, holder.is_some()) => {
            (holder.is_none() || holder == Some(visit.parent)) && begins_line(page, visit.node)
        }
        _ => false,
    }
}

/// Whether a comment or an include tag of the page goes on in the line of the one before it, which was sent before it, too.
fn goes_on_in_line(index: &[Visit<'_, '_>], before: &Node<'_>, node: &Node<'_>) -> bool {
    if node.id == 0 || !node.kind.is_mark() || before.id.saturating_add(1) != node.id {
        return false;
    }
    match (original(index, before.id), original(index, node.id)) {
        (Some(left), Some(visit)) => match (left.node.ranges, visit.node.ranges) {
            (Some(ended), Some(begun)) => {
                left.parent == visit.parent && ended.end == begun.start
            }
            _ => false,
        },
        _ => false,
    }
}

/// The inside of an edited node without the comments and include tags at its end that are on lines of their own, or after
/// another one of these.
fn text_in<'n, 'b>(
    page: &str,
    index: &[Visit<'_, '_>],
    holder: Option<u32>,
    node: &'n Node<'b>,
) -> &'n [Node<'b>] {
    let inside = inside(node);
    if !holds_more(node.kind) {
        return inside;
    }
    let mut end = 0;
    for at in 0..inside.len() {
        let is_below = is_on_own_line(page, index, holder, &inside[at])
            || (end < at && goes_on_in_line(index, &inside[at - 1], &inside[at]));
        if !is_below {
            end = at.saturating_add(1);
        }
    }
    if end <= inside.len() {
        &inside[..end]
    } else {
        inside
    }
}

/// The text with which an edited node begins: its inside. Where the line break before it wasn't sent, a comment or an
/// include tag on a line of its own is at the end of the inside of an item or a cell; it is no part of the text.
pub fn text_of<'n, 'b>(page: &str, index: &[Visit<'_, '_>], node: &'n Node<'b>) -> &'n [Node<'b>] {
    text_in(page, index, None, node)
}

/// The same of a node of the page that stays: those comments and tags stay in it that the page has in it, and calls that
/// give nothing.
pub fn text_of_staying<'n, 'b>(
    page: &str,
    index: &[Visit<'_, '_>],
    node: &'n Node<'b>,
) -> &'n [Node<'b>] {
    text_in(page, index, Some(node.id), node)
}
