//! Comments and include tags that were sent where nothing is written anew, as between blocks, out of a text that is: they
//! stay in this text, behind its end.

use crate::along::none_noted;
use std::alloc::Global;
use wt_checks::{Visit, is_content};
use wt_difference::{inside_count, is_block_part, stays_in};
use wt_gaps::{Along, comes_along, nodes_between};
use wt_span::{NoMemory, Str};
use wt_tree::{Node, flat};

/// Notes those of these nodes and in them that are comments or include tags of the page.
fn note(marks: &mut [bool], nodes: &[Node<'_>]) {
    for node in nodes {
        let at = node.id as usize;
        if at != 0 && at < marks.len() && node.kind.is_mark() {
            marks[at] = true;
        }
        note(marks, node.children.as_slice());
    }
}

/// How many of a node's children, which stays, are a text that is written anew.
fn written_count(node: &Node<'_>) -> usize {
    if is_content(node.mark()) {
        inside_count(node)
    } else {
        0
    }
}

/// Takes out those of these nodes that come along with a block.
fn take_along(marks: &mut [bool], along: &[Along], nodes: &[Node<'_>]) {
    for node in nodes {
        let at = node.id as usize;
        if at < marks.len() && comes_along(along, node) {
            marks[at] = false;
        }
    }
}

/// Takes out those in a node that are written where they were sent: in a text that is written anew, in a block that doesn't
/// stay, or with one that is moved.
fn take_written(
    marks: &mut [bool],
    index: &[Visit<'_, '_>],
    along: &[Along],
    node: &Node<'_>,
    stays: bool,
) {
    let nodes = node.children.as_slice();
    if !stays {
        return take_all(marks, nodes);
    }
    take_all(marks, nodes_between(nodes, 0, written_count(node)));
    take_along(marks, along, nodes);
    for child in nodes {
        if is_block_part(child.kind) {
            let keeps = stays_in(index, node.id, child);
            take_written(marks, index, along, child, keeps);
        }
    }
}

/// Takes out those in these nodes.
fn take_all(marks: &mut [bool], nodes: &[Node<'_>]) {
    for node in nodes {
        let at = node.id as usize;
        if at < marks.len() {
            marks[at] = false;
        }
        take_all(marks, node.children.as_slice());
    }
}

/// Of each node of the page, by its number, whether it is a comment or an include tag that was sent where nothing is written
/// anew.
pub fn marks_without_place(
    alloc: Global,
    index: &[Visit<'_, '_>],
    edited: &Node<'_>,
    along: &[Along],
) -> Result<Vec<bool>, NoMemory> {
    let mut marks = none_noted(alloc, index)?;
    note(marks.as_mut_slice(), edited.children.as_slice());
    take_written(marks.as_mut_slice(), index, along, edited, true);
    Ok(marks)
}

/// Appends those of these nodes, and in them, that are such marks, as they are in the page.
fn push_marks(
    alloc: Global,
    out: &mut Str,
    marks: &[bool],
    nodes: &[Node<'_>],
) -> Result<(), NoMemory> {
    for node in nodes {
        if marks.get(node.id as usize).copied().unwrap_or(false) && node.kind.is_mark() {
            let source = flat(alloc, node)?;
            out.push_str(source.as_str())?;
        }
        push_marks(alloc, out, marks, node.children.as_slice())?;
    }
    Ok(())
}

/// A text without the blanks at its end, and these; all of it, where nothing but blanks is on its last line.
fn parted_from_blanks(text: &str) -> (&str, &str) {
    let front = text.trim_end_matches(' ');
    if front.is_empty() || front.ends_with("\n") {
        return (text, "");
    }
    text.split_at_checked(front.len()).unwrap_or((text, ""))
}

/// Appends an inside, given as it is written, and before the blanks at its end those of its nodes in the page that are such
/// marks.
pub fn push_with_marks(
    alloc: Global,
    out: &mut Str,
    source: &str,
    marks: &[bool],
    nodes: &[Node<'_>],
) -> Result<(), NoMemory> {
    let (front, blanks) = parted_from_blanks(source);
    out.push_str(front)?;
    push_marks(alloc, out, marks, nodes)?;
    out.push_str(blanks)
}
