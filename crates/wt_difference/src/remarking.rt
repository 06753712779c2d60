//! An edited tree with the marks of its difference, and no others.

ghost use Rattle.std.specs.Prelude.{◌≡◌, IfOk};
ghost use Rattle.wt_tree.specs.View.{view, views};
ghost use Rattle.wt_tree.specs.declared.node.Node.{out-Node};
ghost use Rattle.wt_checks.specs.View.{indexed};
ghost use Rattle.wt_checks.specs.WithoutMarks.{all_unmarked, unmarked};
ghost use Rattle.wt_difference.specs.Remarked.{
  all_remarked,
  are_left,
  mark_between,
  mark_of,
  remarked_child,
  remarked_in,
};

use crate::differing::{same_children, same_inside, stays_in};
use crate::insides::is_block_part;
use std::alloc::Global;
use wt_checks::{Visit, has_mark, original};
use wt_span::{List, NoMemory};
use wt_tree::{Mark, Node};

// ---- no marks

#[cycle(unmarking)]
fn unmarked<'a>(alloc: Global, node: Node<'a>) -> Result<Node<'a>, NoMemory>
    ensures { IfOk result (λ n. view n ≡ unmarked (view node.entry)) }
{
    let children = all_unmarked(alloc, node.children)?;
    let more = node.more.with_mark(alloc, Mark::Nothing)?;
    Ok(Node {
        more,
        children,
        ..node
    })
}

#[cycle(unmarking)]
fn all_unmarked<'a>(alloc: Global, nodes: List<Node<'a>>) -> Result<List<Node<'a>>, NoMemory>
    ensures { IfOk result (λ l. views l ≡ all_unmarked (views nodes.entry)) }
{
    let mut out = Vec::with_capacity(alloc, nodes.len())?;
    for node in nodes.into_vec() {
        let node = unmarked(alloc, node)?;
        out.push(node)?;
    }
    Ok(List::from_vec(out))
}

/// Without its marks, a node that mostly has none.
fn without_marks<'a>(alloc: Global, node: Node<'a>) -> Result<Node<'a>, NoMemory>
    ensures { IfOk result (λ n. view n ≡ unmarked (view node.entry)) }
{
    if !has_mark(&node) {
        return Ok(node);
    }
    unmarked(alloc, node)
}

// ---- the marks of the difference

fn mark_between(
    alloc: Global,
    index: &[Visit<'_, '_>],
    old: &Node<'_>,
    new: &Node<'_>,
) -> Result<Mark, NoMemory>
    ensures { IfOk result (λ m. m ≡ mark_between (indexed index.now) (view old.now) (view new.now)) }
{
    if !same_inside(alloc, old, new)? {
        return Ok(Mark::Content);
    }
    if !same_children(alloc, index, old, new)? {
        return Ok(Mark::Children);
    }
    Ok(Mark::Nothing)
}

fn mark_of(alloc: Global, index: &[Visit<'_, '_>], node: &Node<'_>) -> Result<Mark, NoMemory>
    ensures { IfOk result (λ m. m ≡ mark_of (indexed index.now) (view node.now) (indexed index.now (out-Node node.now).id)) }
{
    match original(index, node.id) {
        None => Ok(Mark::Nothing),
        Some(visit) => mark_between(alloc, index, visit.node, node),
    }
}

#[cycle(remarking)]
fn remarked_in<'a>(
    alloc: Global,
    index: &[Visit<'_, '_>],
    node: Node<'a>,
) -> Result<Node<'a>, NoMemory>
    ensures { IfOk result (λ n. view n ≡ remarked_in (indexed index.now) (view node.entry)) }
{
    let mark = mark_of(alloc, index, &node)?;
    let children = all_remarked(alloc, index, node.id, node.children)?;
    let more = node.more.with_mark(alloc, mark)?;
    Ok(Node {
        more,
        children,
        ..node
    })
}

#[cycle(remarking)]
fn remarked_child<'a>(
    alloc: Global,
    index: &[Visit<'_, '_>],
    holder: u32,
    node: Node<'a>,
) -> Result<Node<'a>, NoMemory>
    ensures { IfOk result (λ n. view n ≡ remarked_child (indexed index.now) holder (view node.entry)) }
{
    if is_block_part(node.kind) && stays_in(index, holder, &node) {
        remarked_in(alloc, index, node)
    } else {
        without_marks(alloc, node)
    }
}

/// Whether none of these nodes is a block or a part of one, and none has a mark: they stay as they are.
fn are_left(nodes: &[Node<'_>]) -> bool
    ensures { result ≡ are_left (views nodes.now) }
{
    for node in nodes {
        if is_block_part(node.kind) || has_mark(node) {
            return false;
        }
    }
    true
}

#[cycle(remarking)]
fn all_remarked<'a>(
    alloc: Global,
    index: &[Visit<'_, '_>],
    holder: u32,
    nodes: List<Node<'a>>,
) -> Result<List<Node<'a>>, NoMemory>
    ensures { IfOk result (λ l. views l ≡ all_remarked (indexed index.now) holder (views nodes.entry)) }
{
    if are_left(nodes.as_slice()) {
        return Ok(nodes);
    }
    let mut out = Vec::with_capacity(alloc, nodes.len())?;
    for node in nodes.into_vec() {
        let node = remarked_child(alloc, index, holder, node)?;
        out.push(node)?;
    }
    Ok(List::from_vec(out))
}

/// An edited tree with the marks of its difference from a page's tree, and no others: a node whose inside
/// was changed is marked `content`, one whose children alone were changed `children`. The marks that it
/// had don't count. `index` has the page's nodes by their numbers (`numbered_nodes`).
pub fn remark<'a>(
    alloc: Global,
    index: &[Visit<'_, '_>],
    edited: Node<'a>,
) -> Result<Node<'a>, NoMemory>
    ensures { IfOk result (λ u. view u ≡ remarked_in (indexed index.now) (view edited.entry)) }
{
    remarked_in(alloc, index, edited)
}
