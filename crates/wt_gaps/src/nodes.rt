//! Children of a node of the page and edited nodes: some of them, and how many there are.

use wt_checks::is_compared;
use wt_difference::Child;
use wt_tree::Node;

/// The children from one place up to another; none where there are none.
pub fn children_between<'w, 't, 'a>(
    children: &'w [Child<'t, 'a>],
    from: usize,
    to: usize,
) -> &'w [Child<'t, 'a>] {
    if from <= to && to <= children.len() {
        &children[from..to]
    } else {
        &children[..0]
    }
}

/// The nodes from one place up to another; none where there are none.
pub fn nodes_between<'w, 'a>(nodes: &'w [Node<'a>], from: usize, to: usize) -> &'w [Node<'a>] {
    if from <= to && to <= nodes.len() {
        &nodes[from..to]
    } else {
        &nodes[..0]
    }
}

/// The first of these nodes that counts.
pub fn first_block<'n, 'a>(nodes: &'n [Node<'a>]) -> Option<&'n Node<'a>> {
    for node in nodes {
        if is_compared(node.kind) {
            return Some(node);
        }
    }
    None
}

/// The last of these nodes that counts.
pub fn last_block<'n, 'a>(nodes: &'n [Node<'a>]) -> Option<&'n Node<'a>> {
    let mut last = None;
    for node in nodes {
        if is_compared(node.kind) {
            last = Some(node);
        }
    }
    last
}

/// How many of these nodes count.
pub fn count_of(nodes: &[Node<'_>]) -> usize {
    let mut count = 0usize;
    for node in nodes {
        if is_compared(node.kind) {
            count = count.saturating_add(1);
        }
    }
    count
}

/// The greatest number among children, which rise.
pub fn last_number(children: &[Child<'_, '_>]) -> u32 {
    let mut last = 0;
    for child in children {
        last = child.node.id.max(last);
    }
    last
}

/// The first of the children from one place on that has this number or a greater one.
pub fn place_behind(children: &[Child<'_, '_>], from: usize, number: u32) -> usize {
    for at in from..children.len() {
        if children[at].node.id >= number {
            return at;
        }
    }
    children.len()
}

/// A comment or an include tag of the page, which has this number.
pub fn mark_at<'t, 'a>(children: &[Child<'t, 'a>], at: usize, number: u32) -> Option<&'t Node<'a>> {
    let child = children.get(at)?;
    let is_same = child.node.id == number && child.node.kind.is_mark();
    if is_same { Some(child.node) } else { None }
}
