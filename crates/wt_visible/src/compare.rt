//! The first child in which two bodies differ.

ghost use Rattle.std.specs.Prelude.{◌≡◌, IfOk};
ghost use Rattle.std.specs.Bool.{Decides};
ghost use Rattle.wt_tree.specs.declared.node.Node.{out-Node};
ghost use Rattle.wt_tree.specs.Plain.{ended, plains_before};
ghost use Rattle.wt_tree.specs.View.{views};
ghost use Rattle.wt_visible.specs.Children.{IsCommonLen, IsFirstDiffering};
ghost use Rattle.wt_visible.specs.Views.{child_view, children_view, held_view, node_view};

use crate::children::{Child, held_by, shown_nodes};
use crate::shown_node::ShownNode;
use std::alloc::Global;
use wt_span::NoMemory;
use wt_tree::{Node, same_face};

fn same_text(a: &[u8], b: &[u8]) -> bool
    ensures { Decides result (a.now ≡ b.now) }
{
    a == b
}

/// Whether two elements show the same.
#[cycle(same)]
fn same_nodes(
    alloc: Global,
    a: ShownNode<'_, '_, '_>,
    b: ShownNode<'_, '_, '_>,
) -> Result<bool, NoMemory>
    ensures { IfOk result (λ same. Decides same (node_view a.entry ≡ node_view b.entry)) }
{
    let alike = same_face(a.node, b.node);
    if !alike {
        return Ok(false);
    }
    let left = held_by(alloc, a)?;
    let right = held_by(alloc, b)?;
    let inside = same_children(alloc, left.as_slice(), right.as_slice())?;
    Ok(inside)
}

#[cycle(same)]
fn is_same(alloc: Global, a: &Child<'_, '_, '_>, b: &Child<'_, '_, '_>) -> Result<bool, NoMemory>
    ensures { IfOk result (λ same. Decides same (child_view a.now ≡ child_view b.now)) }
{
    match a {
        Child::Element(left) => match b {
            Child::Element(right) => {
                let same = same_nodes(alloc, *left, *right)?;
                Ok(same)
            }
            Child::Text(_) => Ok(false),
        },
        Child::Text(left) => match b {
            Child::Element(_) => Ok(false),
            Child::Text(right) => Ok(same_text(left.as_slice(), right.as_slice())),
        },
    }
}

/// In how many of their first children two bodies are the same.
#[cycle(same)]
fn common_len(
    alloc: Global,
    left: &[Child<'_, '_, '_>],
    right: &[Child<'_, '_, '_>],
) -> Result<usize, NoMemory>
    ensures { IfOk result (IsCommonLen (children_view left.now) (children_view right.now)) }
{
    for at in 0..left.len() {
        if at >= right.len() {
            return Ok(at);
        }
        let same = is_same(alloc, &left[at], &right[at])?;
        if !same {
            return Ok(at);
        }
    }
    Ok(left.len())
}

/// Whether two lists of children are the same.
#[cycle(same)]
fn same_children(
    alloc: Global,
    left: &[Child<'_, '_, '_>],
    right: &[Child<'_, '_, '_>],
) -> Result<bool, NoMemory>
    ensures { IfOk result (λ same. Decides same (children_view left.now ≡ children_view right.now)) }
{
    let common = common_len(alloc, left, right)?;
    Ok(common == left.len() && common == right.len())
}

/// The number, from 1, of the first place in which two lists of children differ, or None where they are
/// the same.
pub fn first_of_children(
    alloc: Global,
    left: &[Child<'_, '_, '_>],
    right: &[Child<'_, '_, '_>],
) -> Result<Option<usize>, NoMemory>
    ensures { IfOk result (IsFirstDiffering (children_view left.now) (children_view right.now)) }
{
    let common = common_len(alloc, left, right)?;
    if common < left.len() {
        return Ok(Some(common + 1));
    }
    if common < right.len() {
        return Ok(Some(common + 1));
    }
    Ok(None)
}

/// Whether what an element holds is shown as what a node holds is.
pub fn shows_same(
    alloc: Global,
    element: ShownNode<'_, '_, '_>,
    node: &Node<'_>,
) -> Result<bool, NoMemory>
    ensures { IfOk result (λ same. Decides same (plains_before (held_view element.entry) ended ≡ plains_before (views (out-Node node.now).children) ended)) }
{
    let left = held_by(alloc, element)?;
    let right = shown_nodes(alloc, &[], node.children.as_slice())?;
    let same = same_children(alloc, left.as_slice(), right.as_slice())?;
    Ok(same)
}
