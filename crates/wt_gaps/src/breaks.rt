//! How many line breaks neighbours ask for, by their kinds.

use std::alloc::Global;
use wt_block_signs::{is_cell, is_lined, is_list, is_part};
use wt_checks::is_compared;
use wt_known::Closeness;
use wt_span::{NoMemory, Str};
use wt_tree::{Kind, Node, same_kind};

/// Whether a block of this kind, which isn't a part of another, is recognized by its line's signs.
pub fn is_lined_block(kind: Kind) -> bool {
    is_lined(kind) && !is_part(kind)
}

pub fn is_heading(kind: Kind) -> bool {
    matches!(kind, Kind::Heading(_))
}

/// Whether it is a list, a table or a rule.
pub fn is_box(kind: Kind) -> bool {
    is_lined_block(kind) && !is_heading(kind)
}

/// Whether a node is the group of one call that gives nothing.
fn is_empty_group(node: &Node<'_>) -> bool {
    let children = node.children.as_slice();
    match children.first() {
        Some(first) if matches!(node.kind, Kind::Group) => {
            children.len() == 1 && matches!(first.kind, Kind::Empty)
        }
        _ => false,
    }
}

/// The kind of what a node shows at one side, where this child is; the next one, where this one shows nothing, as the line
/// break doesn't with which what a call gives may begin or end.
fn kind_beside<'n, 'a>(
    node: &Node<'_>,
    child: Option<&'n Node<'a>>,
    next: Option<&'n Node<'a>>,
) -> Kind {
    if is_empty_group(node) {
        return Kind::Empty;
    }
    let shown = match child {
        Some(child) if !is_compared(child.kind) => next,
        _ => child,
    };
    match shown {
        Some(shown) if matches!(node.kind, Kind::Group) && is_lined_block(shown.kind) => shown.kind,
        _ => node.kind,
    }
}

/// The kind of what a node shows last, as its neighbour after it sees it: of a group that ends with a list, a heading
/// or the like this one's, and of that of a call that gives nothing `Empty`.
pub fn kind_at_end(node: &Node<'_>) -> Kind {
    let children = node.children.as_slice();
    let before = match children.len().checked_sub(2) {
        Some(at) => children.get(at),
        None => None,
    };
    kind_beside(node, children.last(), before)
}

/// The same of what it shows first.
pub fn kind_at_start(node: &Node<'_>) -> Kind {
    let children = node.children.as_slice();
    kind_beside(node, children.first(), children.get(1))
}

/// Whether a block of this kind is apart from any other on the next line, but for a list from one of its kind: it is
/// recognized by its line's signs, or leaves its line empty.
fn is_apart(kind: Kind) -> bool {
    is_lined(kind) || matches!(kind, Kind::Empty)
}

/// Whether the first bytes of their lines alone tell two neighbours apart: a paragraph and preformatted text.
fn are_told_by_lines(left: Kind, right: Kind) -> bool {
    match left {
        Kind::Para => matches!(right, Kind::Pre),
        Kind::Pre => matches!(right, Kind::Para),
        _ => false,
    }
}

/// How many line breaks two neighbours ask for at least. No empty line is in an item, a list or a table.
pub fn least_between(is_tight: bool, left: Kind, right: Kind) -> usize {
    if is_cell(left) && !matches!(right, Kind::Group | Kind::Empty) {
        return 0;
    }
    if is_tight {
        return 1;
    }
    let are_apart = is_apart(left) || is_apart(right) || are_told_by_lines(left, right);
    if are_apart && !(is_list(left) && same_kind(left, right)) {
        1
    } else {
        2
    }
}

/// Whether a block comes directly below another in most of the page.
fn is_close(closeness: Closeness, above: Kind, below: Kind) -> bool {
    match above {
        Kind::Heading(_) => closeness.below_headings,
        _ if is_heading(below) => closeness.headings_below_text,
        Kind::Para => closeness.lists_below_text && is_list(below),
        _ => false,
    }
}

/// How many line breaks are written between two neighbours one of which is new: as between others in the page.
pub fn between(closeness: Closeness, is_tight: bool, left: Kind, right: Kind) -> usize {
    if is_tight || is_part(left) || is_part(right) || is_close(closeness, left, right) {
        1
    } else {
        2
    }
}

pub fn push_breaks(out: &mut Str, count: usize) -> Result<(), NoMemory> {
    for _at in 0..count {
        out.push_str("\n")?;
    }
    Ok(())
}

/// So many line breaks.
pub fn breaks(alloc: Global, count: usize) -> Result<Str, NoMemory> {
    let mut out = Str::new(alloc);
    push_breaks(&mut out, count)?;
    Ok(out)
}
